//! Checks an input, a formula with a log or a certificate of rewriting, and says the line about it.
#![tactic(auto)]

mod checking;
mod first_line;
mod reply;

pub use checking::{check_bytes, input_has_one_reply};
pub use reply::CheckReply;
