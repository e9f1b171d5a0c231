//! Tests of columns, which say what rows are deleted.
//! Tests of equality tell first key values, by which the rows are found.
ghost use Rattle.std.specs.Prelude.{◌≡◌, ◌≤◌, ◌↔◌, IfSome, IsTrue, List, slice_index_or, length};
ghost use Rattle.cqa_value.specs.declared.value.Value.{Value as Cell};
ghost use Rattle.cqa_model.specs.Database.{nothing};
ghost use Rattle.cqa_model.specs.Query.{OpHolds};
ghost use Rattle.row_order.specs.Spans.{first_key};
ghost use Rattle.table_blocks.specs.Tables.{TestsHold};

use cqa_model::{MOST_COLUMNS, Op};
use cqa_value::{Row, Value};
use row_order::Probe;

/// A comparison of a table's column with a value.
#[derive(Drop)]
pub struct ColumnTest {
    pub col: u32,
    pub op: Op,
    pub value: Value,
}

/// Whether a row passes all tests.
#[inline(always)]
pub fn passes_all(row: &Row, tests: &[ColumnTest]) -> bool
    ensures { IsTrue result ↔ TestsHold tests.now row.now }
{
    for test in tests {
        if !test.op.holds_in(row, test.col, &test.value) {
            return false;
        }
    }
    true
}

/// The value that a test tells of a column.
fn told_by(test: &ColumnTest, place: u32) -> Option<&Value>
    ensures { IfSome result (λ value. (row : List Cell) → OpHolds test.now.op (slice_index_or row test.now.col nothing) test.now.value → slice_index_or row place nothing ≡ value.now) }
{
    match test.op {
        Op::Eq if test.col == place => Some(&test.value),
        _ => None,
    }
}

/// The value that some test tells of a column.
fn told(tests: &[ColumnTest], place: u32) -> Option<&Value>
    ensures { IfSome result (λ value. (row : List Cell) → TestsHold tests.now row → slice_index_or row place nothing ≡ value.now) }
{
    for test in tests {
        if let Some(value) = told_by(test, place) {
            return Some(value);
        }
    }
    None
}

/// The first key values of the rows for which all tests hold, as many as the tests tell.
pub fn known_key<'a>(key: &[u32], tests: &'a [ColumnTest]) -> Probe<'a>
    ensures few { length result ≤ length key.now }
    ensures known { (row : List Cell) → TestsHold tests.now row → first_key key.now result row ≡ result }
{
    let mut probe = Probe::new();
    for place in key {
        let Some(value) = told(tests, *place) else {
            return probe;
        };
        if probe.len() == MOST_COLUMNS {
            return probe;
        }
        probe.put(value);
    }
    probe
}
