//! The formulas of rows of pairs, decided without a search and refuted.
//! A formula is read as a graph of blocks and pairs, in a time linear in it. Where the graph says that it has no model, additions
//! that follow from each other refute it: the rows that had to be kept tell in turn which variables are false, until a block has
//! none left.
#![tactic(auto)]

mod chains;
mod decide;
mod edges;
mod ends;
mod graph;
mod reading;
mod refuting;

pub use decide::is_unsatisfiable;
pub use graph::{Graph, Pair};
pub use reading::{outcome, read};
pub use refuting::refute;
