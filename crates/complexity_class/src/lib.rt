//! The classes of queries by how hard it is to decide their certain rows.
#![tactic(auto)]

mod class;

pub use class::Class;
