//! Whether rows share a key, the first place of the block of a row, and the place behind it.
//! Rows of one block stand side by side, so one looks at few of them, however many there are.

ghost use Rattle.std.specs.Prelude.{◌+◌, ◌-◌, ◌^◌, ◌<◌, ◌≤◌, ◌↔◌, ℕ, IsTrue, [], length, slice_index_or};
ghost use Rattle.std.specs.List.Sorted.{IsStrictlySortedBy};
ghost use Rattle.cqa_model.specs.Database.{block_cmp};
ghost use Rattle.cqa_model.specs.Repairs.{SharesKey};

use cqa_value::Row;
use row_pieces::Rows;

/// Whether two rows agree in all key columns; a row that is too narrow counts as 0 in a column that it lacks.
pub fn same_key(key: &[u32], a: &Row, b: &Row) -> bool
    ensures { IsTrue result ↔ SharesKey key.now a.now b.now }
{
    key.iter().all(|place| a.agrees(*place, b, *place))
}

/// Whether the rows at two places share a key.
pub fn goes_on(rows: &Rows<'_>, key: &[u32], at: usize, other: usize) -> bool
    requires there { at < length rows.now }
    requires other { other < length rows.now }
    ensures { IsTrue result ↔ SharesKey key.now (slice_index_or rows.now at []) (slice_index_or rows.now other []) }
{
    same_key(key, rows.get(at), rows.get(other))
}

/// Whether the row so many places before one of the block is of the block, too.
fn reaches_back(rows: &Rows<'_>, key: &[u32], at: usize, start: usize, step: usize) -> bool
    requires there { at < length rows.now }
    requires before { start ≤ at }
    ensures { IsTrue result ↔ ((step ≤ start) × SharesKey key.now (slice_index_or rows.now at []) (slice_index_or rows.now (start - step) [])) }
{
    step <= start && goes_on(rows, key, at, start - step)
}

/// The place of the first row of a row's block, by halving between a place before which there is none and a row of the block.
fn start_within(rows: &Rows<'_>, key: &[u32], at: usize, from: usize, to: usize) -> usize
    requires order { IsStrictlySortedBy (block_cmp key.now) rows.now }
    requires there { at < length rows.now }
    requires bounds { (from ≤ to) × (to ≤ at) }
    requires outside { (i : ℕ) → i < from → SharesKey key.now (slice_index_or rows.now at []) (slice_index_or rows.now i []) → ⊥ }
    requires inside { SharesKey key.now (slice_index_or rows.now at []) (slice_index_or rows.now to []) }
    ensures before { result ≤ at }
    ensures block { (i : ℕ) → i ≤ at → SharesKey key.now (slice_index_or rows.now at []) (slice_index_or rows.now i []) ↔ (result ≤ i) }
{
    let mut low = from;
    let mut high = to;
    while low < high {
        let middle = low + (high - low) / 2;
        if goes_on(rows, key, at, middle) {
            high = middle;
        } else {
            low = middle + 1;
        }
    }
    high
}

/// The place of the first row of a row's block: by doubling steps back, and by halving within the last step
/// (Bentley, Yao 1976). So a row of a small block looks at few rows, and one of a wide block doesn't go over it.
pub fn block_start(rows: &Rows<'_>, key: &[u32], at: usize) -> usize
    requires order { IsStrictlySortedBy (block_cmp key.now) rows.now }
    requires there { at < length rows.now }
    ensures before { result ≤ at }
    ensures block { (i : ℕ) → i ≤ at → SharesKey key.now (slice_index_or rows.now at []) (slice_index_or rows.now i []) ↔ (result ≤ i) }
{
    let mut start = at;
    let mut step = 1usize;
    while reaches_back(rows, key, at, start, step) {
        start -= step;
        step = step.saturating_mul(2);
    }
    start_within(rows, key, at, start.saturating_sub(step - 1), start)
}

/// Whether the row so many places behind one of the block is of the block, too.
fn reaches_on(rows: &Rows<'_>, key: &[u32], at: usize, last: usize, step: usize) -> bool
    requires there { at < length rows.now }
    requires last { last < length rows.now }
    ensures fits { IsTrue result → last + step < 2 ^ 64 }
    ensures more { IsTrue result ↔ ((last + step < length rows.now) × SharesKey key.now (slice_index_or rows.now at []) (slice_index_or rows.now (last + step) [])) }
{
    step < rows.len() - last && goes_on(rows, key, at, last + step)
}

/// The place behind a row's block, by halving between a place up to which all rows are of the block and one from which on
/// none is.
fn end_within(rows: &Rows<'_>, key: &[u32], at: usize, from: usize, to: usize) -> usize
    requires there { at < from }
    requires bounds { (from ≤ to) × (to ≤ length rows.now) }
    requires inside { (i : ℕ) → at ≤ i → i < from → SharesKey key.now (slice_index_or rows.now at []) (slice_index_or rows.now i []) }
    requires outside { (i : ℕ) → to ≤ i → i < length rows.now → SharesKey key.now (slice_index_or rows.now at []) (slice_index_or rows.now i []) → ⊥ }
    requires order { IsStrictlySortedBy (block_cmp key.now) rows.now }
    ensures behind { at < result }
    ensures within { result ≤ length rows.now }
    ensures block { (i : ℕ) → at ≤ i → i < length rows.now → SharesKey key.now (slice_index_or rows.now at []) (slice_index_or rows.now i []) ↔ (i < result) }
{
    let mut low = from;
    let mut high = to;
    while low < high {
        let middle = low + (high - low) / 2;
        if goes_on(rows, key, at, middle) {
            low = middle + 1;
        } else {
            high = middle;
        }
    }
    low
}

/// The place behind the block of the row at a place, found as its start is.
pub fn block_end(rows: &Rows<'_>, key: &[u32], at: usize) -> usize
    requires order { IsStrictlySortedBy (block_cmp key.now) rows.now }
    requires there { at < length rows.now }
    ensures behind { at < result }
    ensures within { result ≤ length rows.now }
    ensures block { (i : ℕ) → at ≤ i → i < length rows.now → SharesKey key.now (slice_index_or rows.now at []) (slice_index_or rows.now i []) ↔ (i < result) }
{
    let mut last = at;
    let mut step = 1usize;
    while reaches_on(rows, key, at, last, step) {
        last += step;
        step = step.saturating_mul(2);
    }
    let end = last + step.min(rows.len() - last);
    end_within(rows, key, at, last + 1, end)
}
