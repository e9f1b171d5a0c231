//! Queries of two atoms that attack each other weakly: the laws of their certain rows, and the method over numbers.
//! Rows are numbered, blocks have rows, and two rows of different blocks meet exactly where they have one edge.
#![tactic(auto)]

mod chains;
mod decide;
mod graph;
pub mod laws;
mod layout;
mod lists;
mod matching;
mod outcome;
mod packed;
mod peel;
mod picked;
mod ranks;
mod rows;
mod walk;

pub use chains::edge_numbers;
pub use decide::{Decision, are_certain, decide_rows};
pub use graph::{Ends, Graph};
pub use layout::edge_ends;
pub use lists::{ListForm, Lists};
pub use outcome::{Outcome, choose};
pub use packed::code;
pub use picked::Picked;
pub use rows::NumberedRows;
