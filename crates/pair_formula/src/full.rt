//! The full blocks of a row: those of whose rows each is in a witness. They are found from the witnesses' rows alone, in a
//! time that doesn't grow with other blocks.
//! Rows of one block stand side by side, so a block is full where a run of rows in witnesses has no row of the block beside it.

ghost use Rattle.std.specs.Prelude.{◌≡◌, ◌+◌, ◌-◌, ◌*◌, ◌<◌, ◌≤◌, ◌↔◌, [], IfOk, IsTrue, length, slice_index};
ghost use Rattle.cqa_model.specs.declared.limits.TheConstants.{MOST_ROWS};
ghost use Rattle.join_access.specs.Listing.{names_of};
ghost use Rattle.row_lists.specs.Runs.{AreRowPlaces};
ghost use Rattle.pair_formula.specs.Full.{AreFullOf, AreFullSpans, FollowsInBlock, HasNeighbour, IsInRow, IsRunAdded};

use cqa_value::{Items, NoMemory};
use row_blocks::goes_on;
use row_lists::numbering::Numbering;
use row_lists::span::Span;
use row_pieces::Rows;
use row_witnesses::RowWitnesses;
use std::alloc::Global;

/// Whether the row at a place is the next one of the same block.
fn follows(rows: &Rows<'_>, key: &[u32], place: u32, next: u32) -> bool
    requires place { place < length rows.now }
    requires next { next < length rows.now }
    ensures { IsTrue result ↔ FollowsInBlock key.now rows.now place next }
{
    next > 0 && next - 1 == place && goes_on(rows, key, place as usize, next as usize)
}

/// Where the run of rows ends that begins with the one at `at`: each is the next one of the block.
fn run_end(rows: &Rows<'_>, key: &[u32], places: &[u32], at: usize) -> usize
    requires places { AreRowPlaces rows.now places.now }
    requires there { at < length places.now }
    ensures some { at < result }
    ensures within { result ≤ length places.now }
    ensures run { IsInRow key.now rows.now places.now at result }
    ensures stops { result < length places.now → FollowsInBlock key.now rows.now (slice_index places.now (result - 1)) (slice_index places.now result) → ⊥ }
{
    let mut end = at + 1;
    while end < places.len() && follows(rows, key, places[end - 1], places[end]) {
        end += 1;
    }
    end
}

/// Whether the block of the row at `start` has a row right before it, or at `end`.
fn has_more(rows: &Rows<'_>, key: &[u32], start: usize, end: usize) -> bool
    requires start { start < end }
    requires end { end ≤ length rows.now }
    ensures { IsTrue result ↔ HasNeighbour key.now rows.now start end }
{
    (start > 0 && goes_on(rows, key, start, start - 1))
        || (end < rows.len() && goes_on(rows, key, start, end))
}

/// Adds the block of a run of rows if it has no others, and gives how many variables come up to its end.
fn add_run(
    rows: &Rows<'_>,
    key: &[u32],
    atom: u32,
    base: u32,
    start: usize,
    end: usize,
    spans: &mut Vec<Span>,
) -> Result<u32, NoMemory>
    requires start { start < end }
    requires end { end ≤ length rows.now }
    requires few { length rows.now ≤ MOST_ROWS }
    requires small { base ≤ 2 * MOST_ROWS }
    ensures { IfOk result (λ vars. IsRunAdded key.now rows.now atom base start end spans.old.items vars spans.new.items) }
{
    if has_more(rows, key, start, end) {
        return Ok(base);
    }
    let count = (end - start) as u32;
    spans.push(Span {
        slot: atom,
        start: start as u32,
        count,
        base,
    })?;
    Ok(base + count)
}

/// The full blocks of one atom, and how many variables come up to their end; their rows are numbered from `base` on.
fn full_of_atom(
    witnesses: &RowWitnesses<'_>,
    atom: usize,
    base: u32,
    spans: &mut Vec<Span>,
) -> Result<u32, NoMemory>
    requires there { atom < length witnesses.now.bound.now.query.now.atoms }
    requires small { base ≤ MOST_ROWS }
    requires none { spans.old.items ≡ [] }
    ensures blocks { IfOk result (λ vars. AreFullOf witnesses.now.bound.now.query.now witnesses.now.bound.now.db.now (names_of witnesses.now.list) atom base vars spans.new.items) }
    ensures small { IfOk result (λ vars. vars ≤ base + MOST_ROWS) }
{
    let rows = witnesses.bound.rows_of(atom as u32);
    let key = witnesses.bound.key_of(atom as u32);
    let places = witnesses.column(atom);
    let mut vars = base;
    let mut at = 0;
    while at < places.len() {
        let end = run_end(&rows, key, places, at);
        let start = places[at] as usize;
        let stop = start + (end - at);
        vars = add_run(&rows, key, atom as u32, vars, start, stop, spans)?;
        at = end;
    }
    Ok(vars)
}

/// The full blocks of the row of a pair.
pub(crate) fn full_blocks(
    alloc: Global,
    witnesses: &RowWitnesses<'_>,
) -> Result<Numbering, NoMemory>
    requires { length witnesses.now.bound.now.query.now.atoms ≡ 2 }
    ensures { IfOk result (λ blocks. AreFullSpans witnesses.now.bound.now.query.now witnesses.now.bound.now.db.now (names_of witnesses.now.list) blocks.vars blocks.spans) }
{
    let mut spans = Vec::new(alloc);
    let first = full_of_atom(witnesses, 0, 0, &mut spans)?;
    let mut more = Vec::new(alloc);
    let vars = full_of_atom(witnesses, 1, first, &mut more)?;
    spans.append(&mut more)?;
    Ok(Numbering {
        spans: Items::from_vec(spans),
        vars,
    })
}
