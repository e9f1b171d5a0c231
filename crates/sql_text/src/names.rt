//! The names that a query's text needs.

use cqa_value::{Items, Name};

/// For each atom of a query, in the query's order, the name of its table, and those of its table's columns.
#[derive(Drop)]
pub struct Names {
    pub tables: Items<Name>,
    pub columns: Items<Items<Name>>,
}
