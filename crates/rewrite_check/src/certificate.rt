//! What a certificate says.

use block_tree::Node;
use cqa_model::Query;
use cqa_value::{Items, Row};
use spj_syntax::Select;
use table_blocks::Database;

/// What a certificate is to show: that a row is certain for a query, as it is written and over the tables.
#[derive(Drop)]
pub struct Claim {
    pub select: Select,
    pub query: Query,
    pub row: Row,
}

/// A certificate, as its text spells it: tables without rows, a query over them, as it is written and by places, a row of it,
/// an order of its atoms, and the blocks that are listed.
#[derive(Drop)]
pub struct Certificate {
    pub tables: Database,
    pub select: Select,
    pub query: Query,
    pub row: Row,
    pub order: Items<u32>,
    pub nodes: Items<Node>,
}
