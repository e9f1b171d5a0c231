//! Changes of tables that may be refused: rows that are put in, or loaded, a mark that is set, another key, rows that are preferred.
//! Each call checks first, and changes nothing where it refuses.
#![tactic(auto)]

mod changes;
mod check;
mod fresh;
pub mod laws;
mod preferred;
mod taken;

pub use changes::{insert, load, set_key, set_strict};
pub use check::rows_fault_of;
pub use preferred::prefer;
