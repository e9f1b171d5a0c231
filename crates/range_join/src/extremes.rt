//! Both ends of a least or a greatest value over the witnesses of a query.

ghost use Rattle.std.specs.Prelude.{◌≡◌, ◌<◌, [], IfOk, length};
ghost use Rattle.range_join.specs.Extremes.{sought_by, IsRangeOfPeaks};
ghost use Rattle.range_join.specs.Joins.{IsJoinRange};
ghost use Rattle.range_join.specs.Worths.{AreOthersStrict};

use crate::carriers::Look;
use crate::names::both_named;
use crate::peaks::{Peaks, find_peaks};
use cqa_value::NoMemory;
use range_ask::Range;
use row_witnesses::RowWitnesses;
use std::alloc::Global;

/// Both ends, with the names of the rows.
fn range_of(alloc: Global, table: u32, peaks: Peaks) -> Result<Range, NoMemory>
    ensures { IfOk result (IsRangeOfPeaks table peaks) }
{
    match both_named(alloc, table, peaks.low.as_slice(), peaks.high.as_slice()) {
        Ok((low, high)) => Ok(Range {
            least: peaks.least,
            low,
            greatest: peaks.greatest,
            high,
        }),
        Err(fault) => {
            drop(peaks);
            Err(fault)
        }
    }
}

/// Both ends of the value that lies furthest one way of those that the witnesses of a query without answer columns
/// give.
///
/// # Errors
///
/// `NoMemory` where memory is refused.
pub(crate) fn extreme_range(
    alloc: Global,
    found: &RowWitnesses<'_>,
    look: Look,
) -> Result<Range, NoMemory>
    requires lax { look.lax < length found.now.bound.now.query.now.atoms }
    requires strict { AreOthersStrict found.now.bound.now.query.now look.lax }
    requires atom { look.atom < length found.now.bound.now.query.now.atoms }
    requires row { found.now.row.now ≡ [] }
    ensures { IfOk result (IsJoinRange found.now.bound.now.db.now found.now.bound.now.query.now look.lax (sought_by look)) }
{
    let peaks = find_peaks(alloc, found, look)?;
    range_of(alloc, found.bound.table_of(look.lax), peaks)
}
