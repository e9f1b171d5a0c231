//! The certain rows of a query that has a plan, as one SQL query of named steps.
#![tactic(auto)]

mod bounds;
mod few;
pub mod laws;
mod levels;
mod looked;
mod statement;

pub use statement::sql_of;
