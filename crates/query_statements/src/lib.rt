//! The statements that answer a query or a union, each in a room of its own: its rows, its class, its plan, its SQL, the
//! range of a value.
#![tactic(auto)]

pub mod ask;
pub mod ask_union;
pub mod classify;
pub mod classify_union;
pub mod disputed;
pub mod plan;
pub mod possible;
pub mod possible_union;
pub mod range;
pub mod range_of_join;
mod sides;
pub mod sql;
pub mod sql_union;
mod stopped;
