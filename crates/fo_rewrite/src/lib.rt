//! The orders of a query's atoms whose attacks have no cycle: its rewritings over unattacked atoms, one after the other.
#![tactic(auto)]

mod attacked;
mod known;
mod linking;
mod passes;
mod planning;
mod preference;

pub use passes::elimination_in;
pub use planning::{plan_in, plan_of};
