//! The range of an aggregate over a table: its ends, each with a repair of the table that has it.

ghost use Rattle.std.specs.Prelude.{◌≡◌, ◌<◌, IfOk, length};
ghost use Rattle.range_ask.specs.Ranges.{IsRange};
ghost use Rattle.table_blocks.specs.Tables.{names_in};

use crate::choice::choose;
use aggregate_range::{End, Goal};
use cqa_model::RowId;
use cqa_value::{Items, NoMemory};
use std::alloc::Global;
use table_blocks::{ColumnTest, Database};

/// The least and the greatest value of an aggregate over a table's repairs, each with the names of the rows of a repair that has it:
/// one of each block, in block order.
#[derive(Drop)]
pub struct Range {
    pub least: End,
    pub low: Items<RowId>,
    pub greatest: End,
    pub high: Items<RowId>,
}

/// The names of the rows of a table at some places.
///
/// # Errors
///
/// `NoMemory` where memory is refused.
pub fn named(alloc: Global, table: u32, places: &[u32]) -> Result<Items<RowId>, NoMemory>
    ensures { IfOk result (λ names. names ≡ names_in table places.now) }
{
    let mut names = Vec::with_capacity(alloc, places.len())?;
    for place in places {
        names.push(RowId {
            table,
            place: *place,
        })?;
    }
    Ok(Items::from_vec(names))
}

/// The range of an aggregate over the rows of a table that meet the tests: between which ends its value lies, whichever row of each
/// block is kept, and for each end a repair that has it. One walk over the rows; it is refused by nothing but want of memory.
///
/// # Errors
///
/// `NoMemory` where memory is refused.
pub fn range_of(
    alloc: Global,
    db: &Database,
    table: u32,
    goal: &Goal,
    tests: &[ColumnTest],
) -> Result<Range, NoMemory>
    requires { table < length db.now }
    ensures { IfOk result (λ range. IsRange db.now table goal.now tests.now range) }
{
    let choice = choose(alloc, db, table, goal, tests)?;
    let low = named(alloc, table, choice.low.as_slice())?;
    let high = named(alloc, table, choice.high.as_slice())?;
    Ok(Range {
        least: choice.least,
        low,
        greatest: choice.greatest,
        high,
    })
}
