//! The grammar of statements, and its parser.
#![tactic(auto)]

mod fault;
mod forms;
mod leaf;
mod lists;
mod parser;
mod parts;
mod queries;
mod range_parts;
mod ranges;
mod reader;
mod statements;
mod tree;

pub use fault::SyntaxFault;
pub use forms::{parse_block, parse_order};
pub use parser::parse;
pub use tree::{
    Change, RawBlock, RawCol, RawCond, RawGoal, RawJoinGoal, RawRange, RawSchema, RawTest, Select,
    Selects, Statement, Verb,
};
