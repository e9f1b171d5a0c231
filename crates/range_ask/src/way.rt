//! Which way a column's values are looked over: toward the greatest or toward the least.

ghost use Rattle.std.specs.Prelude.{◌≡◌, true, false};
ghost use Rattle.cqa_value.specs.Values.{value_cmp};
ghost use Rattle.range_ask.specs.Ranges.{cell};
ghost use Rattle.range_ask.specs.Picks.{Before, turned};

use cqa_value::{NOTHING, Row, compare};
use std::cmp::Ordering;
use table_blocks::ColumnTest;

/// Toward greater values, or toward lesser ones.
#[derive(Clone, Copy)]
pub enum Way {
    Up,
    Down,
}

/// What is looked for: the values of a column that lie furthest that way, of the rows that meet the tests.
#[derive(Clone, Copy)]
pub struct Look<'a> {
    pub way: Way,
    pub col: u32,
    pub tests: &'a [ColumnTest],
}

impl Way {
    /// The other way.
    pub fn turned(self) -> Way
        ensures { result ≡ turned self }
    {
        match self {
            Way::Up => Way::Down,
            Way::Down => Way::Up,
        }
    }
}

/// How the values of two rows in a column compare.
fn compared(col: u32, row: &Row, other: &Row) -> Ordering
    ensures { result ≡ value_cmp (cell row.now col) (cell other.now col) }
{
    compare(row.at_or(col, &NOTHING), other.at_or(col, &NOTHING))
}

/// Whether the value of a row in a column lies further that way than another's.
pub(crate) fn is_further(way: Way, col: u32, row: &Row, other: &Row) -> bool
    ensures further { result ≡ true → Before way (cell other.now col) (cell row.now col) }
    ensures behind { result ≡ false → Before way (cell row.now col) (cell other.now col) }
{
    let order = compared(col, row, other);
    match way {
        Way::Up => order.is_gt(),
        Way::Down => order.is_lt(),
    }
}
