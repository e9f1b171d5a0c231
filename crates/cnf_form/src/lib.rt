//! Formulas in conjunctive normal form and logs of their refutations, with what each means.
#![tactic(auto)]

mod body;
mod fault;
mod formula;
mod header;
pub mod laws;
mod log;
mod reading;
pub mod scan;
mod writing;

pub use fault::{FormatFault, Part};
pub use formula::{Clause, Cnf, Lit, Truth};
pub use log::{Log, Step};
pub use reading::read_formula;
pub use writing::{clause_text, formula_text};
