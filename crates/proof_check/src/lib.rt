//! Checks an input of a formula and a log, and says the line about it.
#![tactic(auto)]

mod checking;
mod reply;

pub use checking::{check_proof, input_has_one_reply, printed_is_verified};
pub use reply::ProofReply;
