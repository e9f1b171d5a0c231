//! How queries are decided: the method for the rows of one, by a plan, as a pair, or by search; and whether the parts of a union
//! are apart: no table whose rows differ between repairs stands in two of them.
#![tactic(auto)]

mod apart;
mod pair;
mod shared;
mod strategy;

pub use apart::apart_by_index;
pub use shared::{Shared, has_loose, shared_table};
pub use strategy::{Strategy, strategy_by_sizes, strategy_of};
