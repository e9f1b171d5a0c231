//! Which rows can't stand in a block: a text of theirs has a line that would end it.

ghost use Rattle.std.specs.Prelude.{◌≡◌};
ghost use Rattle.csv_rows.specs.Ends.{has_end, row_has_end, value_has_end};

use cqa_value::{Row, Value};

/// Whether a line between two line feeds is `\.`, or `\.` and a carriage return.
fn has_end(text: &[u8]) -> bool
    ensures { result ≡ has_end text.now }
{
    for at in 0..text.len() {
        let rest = &text[at..];
        if rest.starts_with(b"\n\\.\n") || rest.starts_with(b"\n\\.\r\n") {
            return true;
        }
    }
    false
}

fn value_has_end(value: &Value) -> bool
    ensures { result ≡ value_has_end value.now }
{
    match value {
        Value::Int(_) => false,
        Value::Text(name) => has_end(name.bytes()),
    }
}

/// Whether a text of the row has a line that would end a block.
pub fn row_has_end(row: &Row) -> bool
    ensures { result ≡ row_has_end row.now }
{
    for value in row.as_slice() {
        if value_has_end(value) {
            return true;
        }
    }
    false
}
