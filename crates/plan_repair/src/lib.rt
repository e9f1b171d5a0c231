//! Repairs that hold no witness of a row, by mending along the plan of a query.
#![tactic(auto)]

mod mending;
mod way;

pub use mending::mend;
