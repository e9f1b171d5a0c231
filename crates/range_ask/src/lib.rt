//! Ranges of aggregates over one table: between which ends the value of one lies, whichever row of each block is right, and for
//! each end a repair that has it.
#![tactic(auto)]

mod choice;
mod ends;
mod extremes;
mod found;
mod groups;
pub mod laws;
mod peak;
mod range;
mod reach;
mod sums;
mod tally;
mod top;
mod total;
mod way;
mod wide;
mod worth;

pub use aggregate_range::{End, Goal};
pub use choice::end_of;
pub use ends::{Ends, ends_of};
pub use groups::{Group, groups_of};
pub use range::{Range, named, range_of};
pub use worth::added;
