//! For each place of a table the span of its block.

ghost use Rattle.std.specs.Prelude.{◌≡◌, ◌<◌, IfOk, length, nat_lt, slice_index_or};
ghost use Rattle.range_groups.specs.Spans.{AreSpansOfPlaces};

use cqa_value::NoMemory;
use range_join::{Span, firsts};
use std::alloc::Global;
use table_blocks::Database;

/// The place of a first row, by its number; the count of all rows past the last one.
fn start_at(starts: &[u32], at: usize, count: u32) -> u32
    ensures { result ≡ slice_index_or starts.now at count }
{
    *starts.get(at).unwrap_or(&count)
}

/// For each place of a table the span of its block.
///
/// # Errors
///
/// `NoMemory` where memory is refused.
pub(crate) fn spans_of_places(
    alloc: Global,
    db: &Database,
    table: u32,
) -> Result<Vec<Span>, NoMemory>
    requires { table < length db.now }
    ensures { IfOk result (λ spans. AreSpansOfPlaces db.now table spans.items) }
{
    let goes_before = |place: u32, other: u32| -> bool
        ensures { result ≡ nat_lt place other }
    { place < other };
    let starts = firsts(alloc, db, table, &goes_before)?;
    let count = db.rows(table).len();
    let mut spans = Vec::with_capacity(alloc, count)?;
    for at in 0..starts.len() {
        let from = starts[at];
        let behind = start_at(&starts, at + 1, count as u32);
        spans.resize(behind as usize, Span { from, behind })?;
    }
    Ok(spans)
}
