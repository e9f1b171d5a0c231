//! The state of a session, and the statements on its tables and settings, each in a room of its own; with what the rooms
//! of all statements share.
#![tactic(auto)]

pub mod alter;
pub mod copy;
pub mod create;
pub mod delete;
pub mod dump;
pub mod insert;
pub mod prefer;
pub mod set_conflicts;
pub mod show_conflicts;
pub mod show_log;
pub mod show_tables;
mod state;
pub mod table_place;
mod untold;

pub use state::SessionState;
pub use untold::{refusal_of, refuse_row};
