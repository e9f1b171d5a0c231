//! The tables of a database, each a list of rows in block order.
#![tactic(auto)]

mod bound;
mod clash;
mod database;
mod order;
mod rows;
mod search;
mod span;
mod steps;
mod table;
mod test;

pub use bound::Bound;
pub use clash::{Clash, shares_key};
pub use database::Database;
pub use row_order::{Probe, cell};
pub use rows::{Fresh, place_in};
pub use search::{first_keyed, leading, parted, second_keyed};
pub use steps::Steps;
pub use test::{ColumnTest, passes_all};
