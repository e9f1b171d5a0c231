//! From the bytes of a script to statements and their tokens.
#![tactic(auto)]

mod blocks;
mod bytes;
mod cutter;
mod cutting;
mod kinds;
mod laws;
mod lexer;
mod modes;
mod pieces;
mod scan;

pub use cutter::Cutter;
pub use cutting::Cut;
pub use kinds::{LexFault, Span, Symbol, Token, TokenKind};
pub use laws::{cut_goes_on, cut_is_unique};
pub use lexer::{LONGEST_TEXT, tokens};
pub use scan::cut;
