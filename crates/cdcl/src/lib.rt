//! A solver for formulas in conjunctive normal form that learns clauses, with evidence for each of its answers.
#![tactic(auto)]

mod forget;
mod look;
mod outcome;
mod solver;
mod watch;

pub use outcome::{Outcome, solve};
