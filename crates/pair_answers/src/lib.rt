//! Queries of two tables that attack each other weakly, decided without a search.
//! A row of one is certain, or a repair is found that holds no witness of it, in a time linear in the tables' rows,
//! as long as the hashes of their values spread.
#![tactic(auto)]

mod deciding;
mod fits;
mod lists;
mod pair;
mod plain;
mod shared;
mod side;
mod starts;

pub use deciding::{Kept, decide, is_certain};
pub use pair::PairQuery;
