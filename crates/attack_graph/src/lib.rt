//! The attacks between the atoms of a query, and which of them are weak.
#![tactic(auto)]

mod building;
mod graph;
mod spreading;

pub use building::{attack_row, attacks, weak_row};
pub use graph::Attacks;
