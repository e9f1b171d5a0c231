//! Replies to statements, and the text of each.
#![tactic(auto)]

mod append;
mod classified;
mod contested;
mod explained;
mod logged;
mod planned;
mod ranged;
mod refused;
mod reply;
mod text;
mod united;

pub use reply::{AttackLine, ConflictLine, GroupEnds, KeptRow, PartClass, Proof, Reply, TableLine};
pub use text::reply_bytes;
