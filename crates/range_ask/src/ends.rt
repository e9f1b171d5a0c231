//! Both ends of an aggregate over a table, each with the rows that a repair which has it chose: those of blocks of two or more rows.

ghost use Rattle.std.specs.Prelude.{◌≡◌, ◌<◌, ℕ, Contains, IfOk, length, map, slice_index_or};
ghost use Rattle.range_ask.specs.Choosing.{AreEnds};

use crate::choice::choose;
use aggregate_range::{End, Goal};
use cqa_model::RowId;
use cqa_value::{Items, NoMemory};
use std::alloc::Global;
use table_blocks::{ColumnTest, Database};

/// The least and the greatest value of an aggregate over a table's repairs, each with the names of the rows that a repair which has it
/// keeps of blocks of two or more rows, in block order.
#[derive(Drop)]
pub struct Ends {
    pub least: End,
    pub low: Items<RowId>,
    pub greatest: End,
    pub high: Items<RowId>,
}

/// The names of the rows of a table at the places of some numbers.
fn picked(
    alloc: Global,
    table: u32,
    places: &[u32],
    numbers: &[usize],
) -> Result<Items<RowId>, NoMemory>
    requires { (n : ℕ) → Contains numbers.now n → n < length places.now }
    ensures { IfOk result (λ names. names ≡ map (λ n. record { table = table; place = slice_index_or places.now n 0 }) numbers.now) }
{
    let mut names = Vec::with_capacity(alloc, numbers.len())?;
    for number in numbers {
        names.push(RowId {
            table,
            place: places[*number],
        })?;
    }
    Ok(Items::from_vec(names))
}

/// The ends of the range of an aggregate, as `range_of` has them, with the rows that had to be chosen alone.
///
/// # Errors
///
/// `NoMemory` where memory is refused.
pub fn ends_of(
    alloc: Global,
    db: &Database,
    table: u32,
    goal: &Goal,
    tests: &[ColumnTest],
) -> Result<Ends, NoMemory>
    requires { table < length db.now }
    ensures { IfOk result (AreEnds db.now table goal.now tests.now) }
{
    let choice = choose(alloc, db, table, goal, tests)?;
    let wide = choice.wide.as_slice();
    let low = picked(alloc, table, choice.low.as_slice(), wide)?;
    let high = picked(alloc, table, choice.high.as_slice(), wide)?;
    Ok(Ends {
        least: choice.least,
        low,
        greatest: choice.greatest,
        high,
    })
}
