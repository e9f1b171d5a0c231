//! What is chosen for both ends of an aggregate: one row of each block, by their places.

ghost use Rattle.std.specs.Prelude.{◌≡◌, ◌<◌, IfOk, IfSome, length};
ghost use Rattle.std.specs.Option.{option_copied};
ghost use Rattle.aggregate_range.specs.declared.aggregate.Goal.TheVariants.{Max, Min};
ghost use Rattle.range_ask.specs.Choosing.{IsChoiceBetween, IsRangeChoice, IsLoose};
ghost use Rattle.range_ask.specs.Reaching.{as_end};
ghost use Rattle.range_ask.specs.Walking.{IsTotal};

use crate::extremes::{Extremes, find_extremes};
use crate::reach::Reach;
use crate::sums::{Sides, both_sums};
use crate::top::with_top;
use crate::way::{Look, Way};
use aggregate_range::{End, Goal};
use cqa_value::{NOTHING, NoMemory, Row};
use std::alloc::Global;
use table_blocks::{ColumnTest, Database};

/// Both ends, for each the places of the rows of a repair that has it, one of each block, and the numbers of the blocks that have two
/// or more rows.
#[derive(Drop)]
pub struct Choice {
    pub least: End,
    pub low: Vec<u32>,
    pub greatest: End,
    pub high: Vec<u32>,
    pub wide: Vec<usize>,
}

/// The value of a row in a column as an end; `Empty` where there is no row.
///
/// # Errors
///
/// `NoMemory` where memory is refused.
pub fn end_of(alloc: Global, col: u32, row: Option<&Row>) -> Result<End, NoMemory>
    ensures { IfOk result (λ end. end ≡ as_end col (option_copied row.entry)) }
{
    match row {
        Some(row) => Ok(End::Held(row.at_or(col, &NOTHING).copy(alloc)?)),
        None => Ok(End::Empty),
    }
}

/// What is chosen for a count or a sum.
fn total_choice(
    alloc: Global,
    db: &Database,
    table: u32,
    goal: &Goal,
    tests: &[ColumnTest],
) -> Result<Choice, NoMemory>
    requires there { table < length db.now }
    requires goal { IsTotal goal.now }
    ensures { IfOk result (IsRangeChoice db.now table goal.now tests.now) }
{
    let Sides { low, high, wide } = both_sums(alloc, db, table, goal, tests)?;
    Ok(Choice {
        least: End::Number(low.total),
        low: low.places,
        greatest: End::Number(high.total),
        high: high.places,
        wide,
    })
}

/// A choice between the extreme values of two lists of rows.
fn choice_between<'a>(
    alloc: Global,
    col: u32,
    low: Reach<'a>,
    high: Reach<'a>,
    wide: Vec<usize>,
) -> Result<Choice, NoMemory>
    ensures { IfOk result (IsChoiceBetween col low.entry high.entry wide.items) }
{
    let least = end_of(alloc, col, low.extreme)?;
    let greatest = end_of(alloc, col, high.extreme)?;
    Ok(Choice {
        least,
        low: low.places,
        greatest,
        high: high.places,
        wide,
    })
}

/// What is chosen for a greatest value.
fn greatest_choice(
    alloc: Global,
    db: &Database,
    table: u32,
    col: u32,
    tests: &[ColumnTest],
) -> Result<Choice, NoMemory>
    requires { table < length db.now }
    ensures { IfOk result (IsRangeChoice db.now table (Max col) tests.now) }
{
    let way = Way::Up;
    let Extremes {
        avoids,
        meets,
        top: _,
        wide,
    } = find_extremes(alloc, db, table, &Look { way, col, tests })?;
    choice_between(alloc, col, avoids, meets, wide)
}

/// What is chosen for a least value where each block has a row that doesn't meet the tests: it is none where such rows are kept, and
/// greatest where one row alone meets them.
fn loose_choice<'a>(alloc: Global, col: u32, found: Extremes<'a>) -> Result<Choice, NoMemory>
    requires { IfSome found.top (λ top. top.number < length found.avoids.places.items) }
    ensures { IfOk result (IsLoose col found.entry) }
{
    let Extremes {
        avoids,
        meets: _,
        top,
        wide,
    } = found;
    let high = with_top(alloc, &avoids, top)?;
    choice_between(alloc, col, avoids, high, wide)
}

/// What is chosen for a least value.
fn least_choice(
    alloc: Global,
    db: &Database,
    table: u32,
    col: u32,
    tests: &[ColumnTest],
) -> Result<Choice, NoMemory>
    requires { table < length db.now }
    ensures { IfOk result (IsRangeChoice db.now table (Min col) tests.now) }
{
    let way = Way::Down;
    let found = find_extremes(alloc, db, table, &Look { way, col, tests })?;
    if found.avoids.extreme.is_some() {
        choice_between(alloc, col, found.meets, found.avoids, found.wide)
    } else {
        loose_choice(alloc, col, found)
    }
}

/// What is chosen for both ends of an aggregate. One walk over the rows.
///
/// # Errors
///
/// `NoMemory` where memory is refused.
pub(crate) fn choose(
    alloc: Global,
    db: &Database,
    table: u32,
    goal: &Goal,
    tests: &[ColumnTest],
) -> Result<Choice, NoMemory>
    requires { table < length db.now }
    ensures { IfOk result (IsRangeChoice db.now table goal.now tests.now) }
{
    match goal {
        Goal::Count | Goal::Sum(_) => total_choice(alloc, db, table, goal, tests),
        Goal::Min(col) => least_choice(alloc, db, table, *col, tests),
        Goal::Max(col) => greatest_choice(alloc, db, table, *col, tests),
    }
}
