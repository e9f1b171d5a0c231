//! Scripts of a chosen size: four tables with conflicts, and queries whose numbers of answers are known.
#![tactic(auto)]

mod lines;
mod script;

pub use script::{GREATEST_SIZE, script_of};
