//! Rows of an answer. Those that are found in any order and more than once are listed ascending and each once. The possible rows of
//! a query have sides, those that are certain and those that are disputed; rows are sifted by their side.
#![tactic(auto)]

mod answers;
mod difference;
mod side;

pub use answers::Answers;
pub use difference::without;
pub use side::Side;
