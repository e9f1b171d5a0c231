//! Why a row is certain for a query that has a plan, or why it isn't: the block by which the plan holds, or a repair that holds no
//! witness of the row.
#![tactic(auto)]

mod reason;

pub use reason::reason_by_plan;
