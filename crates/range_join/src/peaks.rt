//! Both ends of a least or a greatest value, for each the places of one row of each block.

ghost use Rattle.std.specs.Prelude.{◌≡◌, ◌<◌, ℕ, None, Some, Contains, IfOk, if◌then◌else◌, length, nat_eq, nat_lt, slice_index_or};
ghost use Rattle.cqa_model.specs.Query.{atom_at, rows_of};
ghost use Rattle.cqa_model.specs.Database.{stored};
ghost use Rattle.join_access.specs.Listing.{names_of};
ghost use Rattle.table_blocks.specs.Tables.{rows_at};
ghost use Rattle.range_ask.specs.Ranges.{cell};
ghost use Rattle.range_join.specs.Peaks.{end_places, best_at, lags, peak_from, rank, rank_of, held_value, AreAlone, AreFurthest, AreNearest, ArePeaks, GivesValue, IsGreatestChoice, IsLeastChoice, IsLooseChoice, IsSureChoice, IsTopPlace};

use crate::carriers::{Extreme, Look, carriers, further, lags};
use crate::first_rows::firsts;
use aggregate_range::End;
use cqa_value::{NoMemory, Row};
use range_ask::end_of;
use row_witnesses::RowWitnesses;
use std::alloc::Global;
use table_blocks::Database;

/// Both ends, for each the places of rows, one of each block.
#[derive(Drop)]
pub(crate) struct Peaks {
    pub least: End,
    pub low: Vec<u32>,
    pub greatest: End,
    pub high: Vec<u32>,
}

/// Of each block a place whose value lies least far that way: one without a row, if there is any.
fn nearest(
    alloc: Global,
    db: &Database,
    table: u32,
    way: Extreme,
    col: u32,
    bests: &[Option<&Row>],
) -> Result<Vec<u32>, NoMemory>
    requires there { table < length db.now }
    requires size { length bests.now ≡ length (rows_at db.now table) }
    ensures { IfOk result (λ places. AreNearest way (best_at col bests.now) db.now table places.items) }
{
    let goes_before = |place: u32, other: u32| -> bool
        requires place { place < length bests.now }
        requires other { other < length bests.now }
        ensures { result ≡ lags way (best_at col bests.entry.now place) (best_at col bests.entry.now other) }
    { lags(way, col, bests[place as usize], bests[other as usize]) };
    firsts(alloc, db, table, &goes_before)
}

/// Of each block a place whose value lies furthest that way.
fn furthest(
    alloc: Global,
    db: &Database,
    table: u32,
    way: Extreme,
    col: u32,
    bests: &[Option<&Row>],
) -> Result<Vec<u32>, NoMemory>
    requires there { table < length db.now }
    requires size { length bests.now ≡ length (rows_at db.now table) }
    ensures { IfOk result (λ places. AreFurthest way (best_at col bests.now) db.now table places.items) }
{
    let goes_before = |place: u32, other: u32| -> bool
        requires place { place < length bests.now }
        requires other { other < length bests.now }
        ensures { result ≡ lags way (best_at col bests.entry.now other) (best_at col bests.entry.now place) }
    { lags(way, col, bests[other as usize], bests[place as usize]) };
    firsts(alloc, db, table, &goes_before)
}

/// Of all places one whose value lies furthest that way; 0 where there are none.
fn top_of(way: Extreme, col: u32, bests: &[Option<&Row>]) -> usize
    ensures { IsTopPlace way (best_at col bests.now) (length bests.now) result }
{
    let mut top = 0;
    for place in 0..bests.len() {
        if lags(way, col, bests[top], bests[place]) {
            top = place;
        }
    }
    top
}

/// How early a place is taken of its block: a first one of all places, then those without a row, and then the others.
fn rank(top: usize, row: Option<&Row>, place: u32) -> u8
    ensures { result ≡ if nat_eq place top then 0 else rank_of row.entry }
{
    if place as usize == top {
        0
    } else if row.is_none() {
        1
    } else {
        2
    }
}

/// Of each block a place without a row where it has one; but of the block of one place this place.
fn alone(
    alloc: Global,
    db: &Database,
    table: u32,
    top: usize,
    bests: &[Option<&Row>],
) -> Result<Vec<u32>, NoMemory>
    requires there { table < length db.now }
    requires size { length bests.now ≡ length (rows_at db.now table) }
    ensures { IfOk result (λ places. (col : ℕ) → AreAlone top (best_at col bests.now) db.now table places.items) }
{
    let goes_before = |place: u32, other: u32| -> bool
        requires place { place < length bests.now }
        requires other { other < length bests.now }
        ensures { (col : ℕ) → result ≡ nat_lt (rank top (best_at col bests.entry.now) place) (rank top (best_at col bests.entry.now) other) }
    { rank(top, bests[place as usize], place) < rank(top, bests[other as usize], other) };
    firsts(alloc, db, table, &goes_before)
}

/// Of the rows at some places one whose value lies furthest that way.
fn peak<'a>(way: Extreme, col: u32, bests: &[Option<&'a Row>], places: &[u32]) -> Option<&'a Row>
    requires { (p : ℕ) → Contains places.now p → p < length bests.now }
    ensures { held_value col result ≡ peak_from way None (best_at col bests.now) places.now }
{
    let mut best = None;
    for place in places {
        best = further(way, col, best, bests[*place as usize]);
    }
    best
}

/// The row at a place, if there is one.
fn row_for<'a>(bests: &[Option<&'a Row>], place: usize) -> Option<&'a Row>
    ensures { result ≡ slice_index_or bests.now place None }
{
    match bests.get(place) {
        Some(row) => *row,
        None => None,
    }
}

/// Both ends of a greatest value.
fn greatest_peaks(
    alloc: Global,
    db: &Database,
    table: u32,
    col: u32,
    bests: &[Option<&Row>],
) -> Result<Peaks, NoMemory>
    requires there { table < length db.now }
    requires size { length bests.now ≡ length (rows_at db.now table) }
    ensures { IfOk result (λ peaks. IsGreatestChoice (best_at col bests.now) db.now table (end_places peaks)) }
{
    let way = Extreme::Greatest;
    let low = nearest(alloc, db, table, way, col, bests)?;
    let high = furthest(alloc, db, table, way, col, bests)?;
    let least = end_of(alloc, col, peak(way, col, bests, &low))?;
    let greatest = end_of(alloc, col, peak(way, col, bests, &high))?;
    Ok(Peaks {
        least,
        low,
        greatest,
        high,
    })
}

/// Both ends of a least value where some block gives one whichever row is kept of it. The greatest one, and the places
/// that have it, are known.
fn sure_peaks(
    alloc: Global,
    db: &Database,
    table: u32,
    col: u32,
    bests: &[Option<&Row>],
    high: Vec<u32>,
    best: &Row,
) -> Result<Peaks, NoMemory>
    requires there { table < length db.now }
    requires size { length bests.now ≡ length (rows_at db.now table) }
    ensures { IfOk result (λ peaks. IsSureChoice (best_at col bests.now) db.now table (cell best.now col) high.items (end_places peaks)) }
{
    let low = furthest(alloc, db, table, Extreme::Least, col, bests)?;
    let least = end_of(alloc, col, peak(Extreme::Least, col, bests, &low))?;
    let greatest = end_of(alloc, col, Some(best))?;
    Ok(Peaks {
        least,
        low,
        greatest,
        high,
    })
}

/// Both ends of a least value where no block is sure to give one: there is none where the places that give none are
/// kept, and it is greatest where the greatest of all is kept beside such places.
fn loose_peaks(
    alloc: Global,
    db: &Database,
    table: u32,
    col: u32,
    bests: &[Option<&Row>],
    low: Vec<u32>,
) -> Result<Peaks, NoMemory>
    requires there { table < length db.now }
    requires size { length bests.now ≡ length (rows_at db.now table) }
    ensures { IfOk result (λ peaks. IsLooseChoice (best_at col bests.now) (length bests.now) db.now table low.items (end_places peaks)) }
{
    let top = top_of(Extreme::Greatest, col, bests);
    let high = alone(alloc, db, table, top, bests)?;
    let greatest = end_of(alloc, col, row_for(bests, top))?;
    Ok(Peaks {
        least: End::Empty,
        low,
        greatest,
        high,
    })
}

/// Both ends of a least value.
fn least_peaks(
    alloc: Global,
    db: &Database,
    table: u32,
    col: u32,
    bests: &[Option<&Row>],
) -> Result<Peaks, NoMemory>
    requires there { table < length db.now }
    requires size { length bests.now ≡ length (rows_at db.now table) }
    ensures { IfOk result (λ peaks. IsLeastChoice (best_at col bests.now) (length bests.now) db.now table (end_places peaks)) }
{
    let near = nearest(alloc, db, table, Extreme::Least, col, bests)?;
    match peak(Extreme::Least, col, bests, &near) {
        Some(best) => sure_peaks(alloc, db, table, col, bests, near, best),
        None => loose_peaks(alloc, db, table, col, bests, near),
    }
}

/// Both ends of the least or the greatest value that witnesses give, whichever row is kept of each block of the lax
/// atom's table.
///
/// # Errors
///
/// `NoMemory` where memory is refused.
pub(crate) fn find_peaks(
    alloc: Global,
    found: &RowWitnesses<'_>,
    look: Look,
) -> Result<Peaks, NoMemory>
    requires lax { look.lax < length found.now.bound.now.query.now.atoms }
    requires atom { look.atom < length found.now.bound.now.query.now.atoms }
    ensures { IfOk result (λ peaks. ArePeaks found.now.bound.now.db.now (atom_at found.now.bound.now.query.now look.lax).table look.way (GivesValue (rows_of found.now.bound.now.query.now (stored found.now.bound.now.db.now) look.atom) (names_of found.now.list) look.lax look.atom look.col) (end_places peaks)) }
{
    let bests = carriers(alloc, found, look)?;
    let db = found.bound.db;
    let table = found.bound.table_of(look.lax);
    match look.way {
        Extreme::Least => least_peaks(alloc, db, table, look.col, &bests),
        Extreme::Greatest => greatest_peaks(alloc, db, table, look.col, &bests),
    }
}
