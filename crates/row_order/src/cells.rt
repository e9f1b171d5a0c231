//! The value of a row in a column.

ghost use Rattle.std.specs.Prelude.{◌≡◌, slice_get};
ghost use Rattle.std.specs.Option.{option_copied};

use cqa_value::{Row, Value};

/// The value of a row in a column, if the row is so wide.
pub fn cell<'a>(row: &'a Row, place: u32) -> Option<&'a Value>
    ensures { option_copied result ≡ slice_get row.now place }
{
    if place < row.len() {
        Some(row.get(place))
    } else {
        None
    }
}
