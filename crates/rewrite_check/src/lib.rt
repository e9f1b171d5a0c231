//! Certificates of rewriting, checked: their text is read, and their tree of blocks is judged.
#![tactic(auto)]

mod certificate;
mod checking;
mod head;
pub mod laws;
mod nodes;
mod opening;
mod order;
mod reading;
mod script;

pub use certificate::Certificate;
pub use checking::check_rewriting;
pub use reading::read;
