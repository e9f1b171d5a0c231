//! The least and the greatest value of lists of rows with weights, over all choices of a row of each block.
#![tactic(auto)]

mod asked;
mod best;
mod keeping;
pub mod laws;
mod linking;
mod lists;
mod numbers;
mod parts;
mod room;
mod search;
mod solving;
mod under;

pub use asked::are_lists;
pub use best::{Best, Fault};
pub use lists::WeightedLists;
pub use search::{greatest, least};
