//! Aggregates over the rows of a table, and the ends between which the value of one lies.

use cqa_value::Value;

/// An aggregate: how many rows there are, or the sum, the least or the greatest value of the column at a place.
#[derive(Clone, Copy, Debug, PartialEq, Eq)]
pub enum Goal {
    Count,
    Sum(u32),
    Min(u32),
    Max(u32),
}

/// An end of a range: no value, a number of rows or a sum, or a value of the column.
#[derive(Debug, PartialEq, Eq, Drop)]
pub enum End {
    Empty,
    Number(i128),
    Held(Value),
}
