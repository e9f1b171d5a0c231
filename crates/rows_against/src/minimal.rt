//! The rows that are kept against a row, from all its witnesses and from a repair that holds none of them.

ghost use Rattle.std.specs.Prelude.{◌≡◌, ◌<◌, ℕ, Contains, IfOk, length, map, slice_index_or};
ghost use Rattle.join_access.specs.Listing.{no_name};
ghost use Rattle.table_blocks.specs.Tables.{AreStored};
ghost use Rattle.repair_back.specs.Rejected.{AreRejectingRows};
ghost use Rattle.rows_against.specs.Against.{IsAgainst};

use crate::fewest::fewest;
use crate::hits::all_hits;
use cqa_model::RowId;
use cqa_value::{Items, NoMemory};
use row_witnesses::RowWitnesses;
use std::alloc::Global;

/// The names with some numbers.
fn numbered(alloc: Global, names: &[RowId], numbers: &[usize]) -> Result<Items<RowId>, NoMemory>
    requires { (number : ℕ) → Contains numbers.now number → number < length names.now }
    ensures { IfOk result (λ some. some ≡ map (λ number. slice_index_or names.now number no_name) numbers.now) }
{
    let mut some = Items::with_capacity(alloc, numbers.len())?;
    for number in numbers {
        some.push(names[*number])?;
    }
    Ok(some)
}

/// The rows that are kept against a row that isn't certain: no repair that keeps them holds a witness of it, and none of them
/// can be left out. They are of the blocks of the witnesses' rows, and a repair without a witness tells which rows of these
/// to keep. Where the row has no witness, there are none.
///
/// # Errors
///
/// `NoMemory` where memory is refused.
pub fn minimal_rows(
    alloc: Global,
    witnesses: &RowWitnesses<'_>,
    rejecting: &[RowId],
) -> Result<Items<RowId>, NoMemory>
    requires rejecting { AreRejectingRows witnesses.now.bound.now.db.now witnesses.now.bound.now.query.now witnesses.now.row.now rejecting.now }
    requires stored { AreStored witnesses.now.bound.now.db.now rejecting.now }
    ensures { IfOk result (IsAgainst witnesses.now.bound.now.db.now witnesses.now.bound.now.query.now witnesses.now.row.now) }
{
    let hits = all_hits(alloc, witnesses, rejecting)?;
    let count = witnesses.list.len();
    let numbers = fewest(alloc, hits.as_slice(), count, rejecting.len())?;
    numbered(alloc, rejecting, numbers.as_slice())
}
