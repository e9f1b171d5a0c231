//! Aggregates over the rows of a table, and the ends between which the value of one lies.
#![tactic(auto)]

mod aggregate;

pub use aggregate::{End, Goal};
