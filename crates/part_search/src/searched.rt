//! What a search for rows, candidate by candidate, comes to.

use cnf_form::{Cnf, Log};
use cqa_value::{Items, Row};

/// Why a search ends before all candidates are decided.
#[derive(Debug, Drop)]
pub enum Stop {
    /// The row has more than `MOST_WITNESSES` witnesses.
    Over(Row),
    /// The budget is used up for the formula of the row.
    Spent { row: Row, cnf: Cnf, log: Log },
}

/// What a search for rows comes to.
#[derive(Debug, Drop)]
pub enum Searched {
    /// The rows, ascending and each once.
    All(Items<Row>),
    Stopped(Stop),
}
