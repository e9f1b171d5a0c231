//! Of each block of a table the place of a row that adds least, or most.

ghost use Rattle.std.specs.Prelude.{◌<◌, IfOk, length};
ghost use Rattle.range_join.specs.Bounds.{AreLeastPlaces, AreMostPlaces};
ghost use Rattle.range_join.specs.Worths.{number_at};

use crate::first_rows::firsts;
use crate::numbers::number;
use cqa_value::NoMemory;
use std::alloc::Global;
use table_blocks::Database;

/// For each block of a table the place of a row that adds least, by what each row adds.
///
/// # Errors
///
/// `NoMemory` where memory is refused.
pub(crate) fn lowest(
    alloc: Global,
    db: &Database,
    table: u32,
    numbers: &[i128],
) -> Result<Vec<u32>, NoMemory>
    requires { table < length db.now }
    ensures { IfOk result (λ places. AreLeastPlaces (number_at numbers.now) db.now table places.items) }
{
    let goes_before = |place: u32, other: u32| number(numbers, place) < number(numbers, other);
    firsts(alloc, db, table, &goes_before)
}

/// For each block of a table the place of a row that adds most.
///
/// # Errors
///
/// `NoMemory` where memory is refused.
pub(crate) fn highest(
    alloc: Global,
    db: &Database,
    table: u32,
    numbers: &[i128],
) -> Result<Vec<u32>, NoMemory>
    requires { table < length db.now }
    ensures { IfOk result (λ places. AreMostPlaces (number_at numbers.now) db.now table places.items) }
{
    let goes_before = |place: u32, other: u32| number(numbers, other) < number(numbers, place);
    firsts(alloc, db, table, &goes_before)
}
