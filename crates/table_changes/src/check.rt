//! What is wrong with rows that are to be stored: the first fault in the order of rows and columns.
//! Rows without one have valid values of the right kinds.
ghost use Rattle.std.specs.Prelude.{◌≡◌, ◌<◌, ◌+◌, ◌^◌, IsNone, length};
ghost use Rattle.cqa_model.specs.Database.{kinds_of};
ghost use Rattle.cqa_value.specs.Valid.{IsValidValue, IsValidRow};
ghost use Rattle.refusals.specs.Kinds.{cell_fault, kind_fault, row_fault, rows_fault};
ghost use Rattle.table_blocks.specs.Tables.{AreValidRows};

use cqa_model::{Column, Schema};
use cqa_value::{Row, Value};
use refusals::{Place, Refusal};

/// What is wrong with a value: it has another kind than its column.
fn cell_fault_of(column: &Column, value: &Value, row: u32, at: u32) -> Option<Refusal>
    ensures is { result ≡ cell_fault row at column.now.kind value.now }
    ensures valid { IsValidValue value.now }
{
    if value.kind() == column.kind {
        None
    } else {
        Some(Refusal::TypeMismatch {
            place: Place::Cell { row, column: at },
        })
    }
}

/// The first value of a row, by its number, that has another kind than its column.
fn kind_fault_of(schema: &Schema, row: &Row, number: u32) -> Option<Refusal>
    requires { length row.now ≡ length schema.now.columns }
    ensures is { result ≡ kind_fault number 1 (kinds_of schema.now) row.now }
    ensures valid { IsNone result → IsValidRow row.now }
{
    let columns = schema.columns.as_slice();
    for (at, value) in row.as_slice().iter().enumerate() {
        if let Some(fault) = cell_fault_of(&columns[at], value, number, at as u32 + 1) {
            return Some(fault);
        }
    }
    None
}

/// What is wrong with the row of a number: how many values it has, or the kind of one.
fn row_fault_of(schema: &Schema, row: &Row, number: u32) -> Option<Refusal>
    ensures is { result ≡ row_fault (kinds_of schema.now) number row.now }
    ensures valid { IsNone result → IsValidRow row.now }
{
    if row.len() as usize != schema.columns.as_slice().len() {
        return Some(Refusal::WrongArity { row: number });
    }
    kind_fault_of(schema, row, number)
}

/// The first fault of rows, numbered from 1.
pub fn rows_fault_of(schema: &Schema, rows: &[Row]) -> Option<Refusal>
    requires { length rows.now < 2 ^ 32 }
    ensures is { result ≡ rows_fault (kinds_of schema.now) 1 rows.now }
    ensures valid { IsNone result → AreValidRows rows.now }
{
    for (at, row) in rows.iter().enumerate() {
        if let Some(fault) = row_fault_of(schema, row, at as u32 + 1) {
            return Some(fault);
        }
    }
    None
}
