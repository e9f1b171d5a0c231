//! Why a row isn't certain, told by few rows: no repair that keeps them holds a witness of it, and none of them can be left
//! out.
#![tactic(auto)]

mod fewest;
mod hits;
pub mod laws;
mod minimal;
mod rival;

pub use minimal::minimal_rows;
