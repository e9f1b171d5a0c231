//! What the values of a row in some columns are told by: a number that is the same for the same values, and their order.
#![tactic(auto)]

mod digest;
mod order;

pub use digest::{digest_of, fed};
pub use order::compare_in;
