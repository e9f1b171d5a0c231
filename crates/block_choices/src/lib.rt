//! Blocks that are told by their sizes alone, choices of a row of each, and lists of their rows.
#![tactic(auto)]

mod pool;
mod row;

pub use pool::Lists;
pub use row::BlockRow;
