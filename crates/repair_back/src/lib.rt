//! Repairs by the rows that they keep of some tables: of a choice of one row each block, and so from a model of a row's formula;
//! and the types of what a method tells of a row, and of what keeps it from being told.
#![tactic(auto)]

mod atoms;
mod blocks;
mod choice;
mod from_models;
mod kept;
mod reason;
mod repair;
mod rivals;

pub use atoms::tables_of;
pub use blocks::{block_end, block_start};
pub use choice::Choice;
pub use from_models::{from_model, tables_from_model};
pub use kept::{blank, settle_all};
pub use reason::{Reason, Untold};
pub use repair::{Repair, named};
pub use rivals::{chosen, contested};
