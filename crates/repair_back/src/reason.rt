//! What a method tells of a row, and what keeps it from being told.

use cnf_form::{Cnf, Log};
use cqa_model::RowId;
use cqa_value::{Items, Row};

/// Why a row is certain for a query, or why it isn't.
#[derive(Drop)]
pub enum Reason {
    /// It is certain by the block of the table at a place that has these key values.
    ByBlock { table: u32, key: Row },
    /// It isn't certain: a repair of the query's tables that holds no witness of it, by its rows in the blocks of two or
    /// more rows.
    Rejected(Items<RowId>),
    /// It is certain by its formula, which a log refutes.
    Refuted { cnf: Cnf, log: Log },
}

/// What keeps the reason of a row from being told.
#[derive(Drop)]
pub enum Untold {
    /// The row has more than `MOST_WITNESSES` witnesses.
    Over,
    /// The budget is used up for the row: its formula, and the spent log.
    Spent { cnf: Cnf, log: Log },
}
