//! Formulas whose clauses are stretches of one pool of literals, and what is found out of one without a solver.
//! Propagation and a first guess decide most formulas that are small.
#![tactic(auto)]

mod flat;
mod guess;
mod look;
mod units;

pub use flat::FlatFormula;
pub use guess::{Found, glance};
