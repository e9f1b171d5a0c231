//! The names of schemas, of the tests of rows, of the goals and the groups of ranges and of queries, resolved over a database's
//! tables.
#![tactic(auto)]

mod answer;
mod column;
mod condition;
mod deletion;
mod faults;
mod from;
mod goal;
mod key;
mod names;
mod query;
mod range;
mod schema;
mod unions;

pub use answer::check_row;
pub use deletion::resolve_tests;
pub use faults::unknown_table;
pub use goal::{resolve_goal, resolve_group};
pub use key::resolve_key;
pub use query::resolve;
pub use range::{RangeQuery, resolve_range};
pub use schema::resolve_schema;
pub use unions::{check_union_row, resolve_all};
