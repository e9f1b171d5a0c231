//! Records as rows, and rows as records.

ghost use Rattle.std.specs.Prelude.{◌≡◌, ◌≤◌, List, IfOk, OnOk, MatchOption, length, map};
ghost use Rattle.cqa_value.specs.declared.row.TheConstants.{MOST_COLUMNS};
ghost use Rattle.cqa_value.specs.declared.value.Value.{Value as Cell};
ghost use Rattle.csv.specs.Records.{fields_of};
ghost use Rattle.cqa_value.specs.Valid.{IsValidRow};
ghost use Rattle.csv_rows.specs.Blocks.{IsRecordOf, kinds};
ghost use Rattle.csv_rows.specs.Texts.{value_bytes};

use crate::field::{push_value, value_of};
use cqa_model::Column;
use cqa_value::{NoMemory, Row};
use csv::ByteRecord;
use std::alloc::Global;

/// The row that a record is. `None` where it is none: it has another number of fields than there are columns, or a
/// field gives its column no value.
///
/// # Errors
///
/// `NoMemory` where memory is refused.
pub fn row_of(
    alloc: Global,
    columns: &[Column],
    fields: &ByteRecord,
) -> Result<Option<Row>, NoMemory>
    requires { length columns.now ≤ MOST_COLUMNS }
    ensures { IfOk result (λ found. MatchOption found ((row : List Cell) → IsRecordOf (kinds columns.now) (fields_of fields.now) row → ⊥) (λ row. IsRecordOf (kinds columns.now) (fields_of fields.now) row)) }
{
    if fields.len() != columns.len() {
        return Ok(None);
    }
    let mut row = Row::with_capacity(alloc, columns.len())?;
    for (at, column) in columns.iter().enumerate() {
        let Some(field) = fields.get(at) else {
            return Ok(None);
        };
        let Some(value) = value_of(alloc, column.kind, field)? else {
            return Ok(None);
        };
        row.push(value)?;
    }
    Ok(Some(row))
}

/// Makes a record of the row's values.
///
/// # Errors
///
/// `NoMemory` where memory is refused.
pub fn set_record(row: &Row, fields: &mut ByteRecord) -> Result<(), NoMemory>
    ensures fields { OnOk result (fields_of fields.new ≡ map value_bytes row.now) }
    ensures stored { OnOk result (IsValidRow row.now) }
{
    fields.clear();
    for value in row.as_slice() {
        push_value(value, fields)?;
    }
    Ok(())
}
