//! The text of groups of lists, line by line: what each line says, and what is replied to it.
#![tactic(auto)]

mod fault;
mod group;
mod judging;
mod limits;
mod machine;
mod naming;
mod ranging;
mod reading;
mod reply;
mod rows;
mod sizes;
mod wanted;
mod weights;

pub use fault::Fault;
pub use limits::{LONGEST_LINE, MOST_NAMES};
pub use machine::Machine;
pub use wanted::Wanted;
