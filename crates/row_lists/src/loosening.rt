//! Rows in whose place a repair can keep another one of their block: one that is at none of some places.
//! Rows of one block stand side by side, so such a free row is looked for next to places that stand together.

ghost use Rattle.std.specs.Prelude.{◌≡◌, ◌+◌, ◌-◌, ◌⊎◌, ◌<◌, ◌≤◌, [], IfOk, IsTrue, length, slice_index_or};
ghost use Rattle.cqa_model.specs.Repairs.{SharesKey};
ghost use Rattle.row_lists.specs.Loose.{AreLoose, IsLooseAt};
ghost use Rattle.row_lists.specs.Runs.{AreRowPlaces};

use cqa_value::NoMemory;
use row_blocks::goes_on;
use row_pieces::Rows;
use std::alloc::Global;

/// Whether the row at a place is loose by a free row before it. `next` is the place behind the last one that was looked at,
/// and `last` is what was found there.
fn is_loose_before(rows: &Rows<'_>, key: &[u32], place: usize, next: usize, last: bool) -> bool
    requires { place < length rows.now }
    ensures again { place < next → result ≡ last }
    ensures near { next ≤ place → IsTrue result → (0 < place) × ((next < place) ⊎ IsTrue last) × SharesKey key.now (slice_index_or rows.now place []) (slice_index_or rows.now (place - 1) []) }
{
    if place < next {
        last
    } else {
        place > 0 && (place > next || last) && goes_on(rows, key, place, place - 1)
    }
}

/// Whether the row at a place is loose by a free row behind it. `end` is the last place that was looked at, and `last` is
/// what was found there.
fn is_loose_behind(rows: &Rows<'_>, key: &[u32], place: usize, end: usize, last: bool) -> bool
    requires { place < length rows.now }
    ensures again { end ≤ place → result ≡ last }
    ensures near { place < end → IsTrue result → (place + 1 < length rows.now) × ((place + 1 < end) ⊎ IsTrue last) × SharesKey key.now (slice_index_or rows.now place []) (slice_index_or rows.now (place + 1) []) }
{
    if place >= end {
        last
    } else {
        let next = place + 1;
        next < rows.len() && (next < end || last) && goes_on(rows, key, place, next)
    }
}

/// Which places have rows that are loose by a free row before them.
fn marks_before(
    alloc: Global,
    rows: &Rows<'_>,
    key: &[u32],
    places: &[u32],
) -> Result<Vec<bool>, NoMemory>
    requires { AreRowPlaces rows.now places.now }
    ensures size { IfOk result (λ loose. length loose.items ≡ length places.now) }
    ensures loose { IfOk result (λ loose. AreLoose key.now rows.now places.now loose.items) }
{
    let mut loose = Vec::with_capacity(alloc, places.len())?;
    let mut next = 0;
    let mut last = false;
    for at in 0..places.len() {
        let place = places[at] as usize;
        last = is_loose_before(rows, key, place, next, last);
        loose.push(last)?;
        next = place + 1;
    }
    Ok(loose)
}

/// Marks the places that have rows that are loose by a free row behind them.
fn mark_behind(rows: &Rows<'_>, key: &[u32], places: &[u32], loose: &mut Vec<bool>)
    requires places { AreRowPlaces rows.now places.now }
    requires size { length loose.old.items ≡ length places.now }
    requires loose { AreLoose key.now rows.now places.now loose.old.items }
    ensures size { length loose.new.items ≡ length places.now }
    ensures loose { AreLoose key.now rows.now places.now loose.new.items }
{
    let mut end = rows.len();
    let mut last = false;
    let mut at = places.len();
    while at > 0 {
        at -= 1;
        let place = places[at] as usize;
        last = is_loose_behind(rows, key, place, end, last);
        let is_marked = loose[at] || last;
        loose[at] = is_marked;
        end = place;
    }
}

/// Which places have loose rows: those whose blocks have a row at none of the places.
///
/// It looks at the rows of the places, and at one row on each side of those that stand together, so its time doesn't grow with
/// the blocks.
///
/// # Errors
///
/// `NoMemory` where memory is refused.
pub fn loose_places(
    alloc: Global,
    rows: &Rows<'_>,
    key: &[u32],
    places: &[u32],
) -> Result<Vec<bool>, NoMemory>
    requires { AreRowPlaces rows.now places.now }
    ensures size { IfOk result (λ loose. length loose.items ≡ length places.now) }
    ensures loose { IfOk result (λ loose. AreLoose key.now rows.now places.now loose.items) }
{
    let mut loose = marks_before(alloc, rows, key, places)?;
    mark_behind(rows, key, places, &mut loose);
    Ok(loose)
}

/// Whether a place is among those with loose rows.
pub fn is_loose(places: &[u32], loose: &[bool], place: u32) -> bool
    requires { length loose.now ≡ length places.now }
    ensures { IsTrue result → IsLooseAt places.now loose.now place }
{
    match places.binary_search(&place) {
        Ok(at) => loose[at],
        Err(_) => false,
    }
}
