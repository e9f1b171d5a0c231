//! Decides formulas by groups of rows. Rows that exclude the same rows are searched as one variable, and what that search
//! finds is carried over to the rows and checked there: a model clause by clause, a refutation step by step. What doesn't pass
//! is searched anew, row by row.
#![tactic(auto)]

mod accepted;
mod guess;
mod model;
mod outcome;
mod refutation;
mod search;

pub use accepted::is_accepted;
pub use model::is_model;
pub use outcome::is_answer;
pub use refutation::is_refutation;
pub use search::{MERGED_FROM, by_groups, solve};
