//! Reads logs of refutations, and checks them over their formulas.
#![tactic(auto)]

mod checker;
mod checking;
mod deleting;
mod fault;
mod following;
pub mod laws;
mod marks;
mod places;
mod reading;
mod steps;
mod store;
mod text_checking;
mod writing;

pub use checking::check;
pub use fault::{LogCause, LogFault};
pub use reading::read_log;
pub use text_checking::check_text;
pub use writing::log_text;
