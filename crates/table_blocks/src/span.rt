//! The rows with given first key values, which stand together in block order.
//! `span_in` counts and bounds its comparisons; `rows_near` and `rows_with` are the faster ones.
ghost use Rattle.std.specs.Prelude.{◌≡◌, ◌+◌, ◌*◌, ◌<◌, ◌≤◌, ◌^◌, ℕ, length, true, false, IfSome, Some, slice_get};
ghost use Rattle.std.specs.List.Sorted.{IsStrictlySortedBy, IsPartitionedBy, IsPartitionPoint};
ghost use Rattle.cqa_model.specs.Database.{block_cmp};
ghost use Rattle.row_order.specs.Spans.{probe_cmp, comes_before, IsSpan};

use crate::order::compare_key;
use crate::search::{leading, parted};
use crate::steps::Steps;
use cqa_value::Value;
use row_order::Probe;
use row_pieces::Rows;
use std::cmp::Ordering;
use std::sync::ledger::Ledger;

/// Whether a row that compares so comes before those that are looked for, or before those behind them.
fn is_before(with_ties: bool, ordering: Ordering) -> bool
    ensures { result ≡ comes_before with_ties ordering }
{
    match ordering {
        Ordering::Less => true,
        Ordering::Equal => with_ties,
        Ordering::Greater => false,
    }
}

/// How many rows come before those that are looked for, or before those behind them.
fn bound<L: Ledger>(
    rows: &Rows<'_>,
    key: &[u32],
    probe: &Probe<'_>,
    with_ties: bool,
    steps: &mut Steps<L>,
) -> usize
    requires few { length probe.now ≤ length key.now }
    requires parted { IsPartitionedBy (λ row. comes_before with_ties (probe_cmp key.now probe.now row)) rows.now }
    ensures within { result ≤ length rows.now }
    ensures place { IsPartitionPoint (λ row. comes_before with_ties (probe_cmp key.now probe.now row) ≡ true) (λ row. comes_before with_ties (probe_cmp key.now probe.now row) ≡ false) rows.now result }
    ensures cost { (digits : ℕ) → length rows.now < 2 ^ digits → steps.new ≤ steps.old + digits }
{
    let mut base = 0;
    let mut size = rows.len();
    while size > 0 {
        let half = size / 2;
        let middle = base + half;
        if is_before(with_ties, steps.compare(key, probe, rows.get(middle))) {
            base = middle + 1;
            size -= half + 1;
        } else {
            size = half;
        }
    }
    base
}

/// The rows whose first key values are a probe's, and how many rows come before them.
pub fn span_in<'a, L: Ledger>(
    rows: &Rows<'a>,
    key: &[u32],
    probe: &Probe<'_>,
    steps: &mut Steps<L>,
) -> (usize, Rows<'a>)
    requires few { length probe.now ≤ length key.now }
    requires in_order { IsStrictlySortedBy (block_cmp key.now) rows.now }
    ensures span { IsSpan key.now rows.now probe.now result.0 result.1 }
    ensures cost { (digits : ℕ) → length rows.now < 2 ^ digits → steps.new ≤ steps.old + 2 * digits }
{
    let start = bound(rows, key, probe, false, steps);
    let rest = rows.behind(start);
    let count = bound(&rest, key, probe, true, steps);
    (start, rest.up_to(count))
}

/// The first value of a probe, if there is one and the key begins with the first column.
fn first_probed<'a>(key: &[u32], probe: &Probe<'a>) -> Option<&'a Value>
    ensures { IfSome result (λ value. (slice_get key.now 0 ≡ Some 0) × (slice_get probe.now 0 ≡ Some value.now)) }
{
    if probe.len() > 0 && key.first() == Some(&0) {
        Some(probe.get(0))
    } else {
        None
    }
}

/// The second value of a probe, if there is one and it is of the second column.
fn second_probed<'a>(key: &[u32], probe: &Probe<'a>) -> Option<&'a Value>
    ensures { IfSome result (λ value. (slice_get key.now 1 ≡ Some 1) × (slice_get probe.now 1 ≡ Some value.now)) }
{
    if probe.len() > 1 && key.get(1) == Some(&1) {
        Some(probe.get(1))
    } else {
        None
    }
}

/// At most so many rows from a finger on are tried, one after another.
const TRIED: usize = 8;

/// How many rows come before those that are looked for, by one search, which marks narrow where they tell.
fn start_of(rows: &Rows<'_>, key: &[u32], probe: &Probe<'_>) -> usize
    requires few { length probe.now ≤ length key.now }
    requires parted { IsPartitionedBy (λ row. comes_before false (probe_cmp key.now probe.now row)) rows.now }
    ensures within { result ≤ length rows.now }
    ensures place { IsPartitionPoint (λ row. comes_before false (probe_cmp key.now probe.now row) ≡ true) (λ row. comes_before false (probe_cmp key.now probe.now row) ≡ false) rows.now result }
{
    parted(
        rows,
        first_probed(key, probe),
        second_probed(key, probe),
        |row| -> bool
            requires { length probe.now ≤ length key.now }
            ensures { result ≡ comes_before false (probe_cmp key.entry.now probe.entry.now row.now) }
        { is_before(false, compare_key(key, probe, row)) },
    )
}

/// How many rows come before those that are looked for, where the first of these stands shortly behind a finger and the row at the
/// finger comes before them. Nothing is promised of a `None`.
fn start_near(rows: &Rows<'_>, key: &[u32], probe: &Probe<'_>, finger: usize) -> Option<usize>
    requires few { length probe.now ≤ length key.now }
    requires parted { IsPartitionedBy (λ row. comes_before false (probe_cmp key.now probe.now row)) rows.now }
    ensures within { IfSome result (λ start. start ≤ length rows.now) }
    ensures place { IfSome result (IsPartitionPoint (λ row. comes_before false (probe_cmp key.now probe.now row) ≡ true) (λ row. comes_before false (probe_cmp key.now probe.now row) ≡ false) rows.now) }
{
    if finger >= rows.len() {
        return None;
    }
    let near = rows.behind(finger);
    for at in 0..near.len().min(TRIED) {
        if !is_before(false, compare_key(key, probe, near.get(at))) {
            return if at > 0 { Some(finger + at) } else { None };
        }
    }
    None
}

/// The rows whose first key values are a probe's, and how many rows come before them, where that number is known: by doubling
/// steps to their end.
fn span_from<'a>(rows: &Rows<'a>, key: &[u32], probe: &Probe<'_>, start: usize) -> (usize, Rows<'a>)
    requires few { length probe.now ≤ length key.now }
    requires in_order { IsStrictlySortedBy (block_cmp key.now) rows.now }
    requires within { start ≤ length rows.now }
    requires place { IsPartitionPoint (λ row. comes_before false (probe_cmp key.now probe.now row) ≡ true) (λ row. comes_before false (probe_cmp key.now probe.now row) ≡ false) rows.now start }
    ensures { IsSpan key.now rows.now probe.now result.0 result.1 }
{
    let rest = rows.behind(start);
    let count = leading(
        &rest,
        0,
        |row| -> bool
            requires { length probe.now ≤ length key.now }
            ensures { result ≡ comes_before true (probe_cmp key.entry.now probe.entry.now row.now) }
        { is_before(true, compare_key(key, probe, row)) },
    );
    (start, rest.up_to(count))
}

/// The rows whose first key values are a probe's, and how many rows come before them. Rows near a finger are tried first, since
/// rows that are asked for one after another often stand near each other (Guibas, McCreight, Plass, Roberts 1977).
pub fn rows_near<'a>(
    rows: &Rows<'a>,
    key: &[u32],
    probe: &Probe<'_>,
    finger: usize,
) -> (usize, Rows<'a>)
    requires few { length probe.now ≤ length key.now }
    requires in_order { IsStrictlySortedBy (block_cmp key.now) rows.now }
    ensures { IsSpan key.now rows.now probe.now result.0 result.1 }
{
    let start = match start_near(rows, key, probe, finger) {
        Some(start) => start,
        None => start_of(rows, key, probe),
    };
    span_from(rows, key, probe, start)
}

/// The same without a finger.
pub fn rows_with<'a>(rows: &Rows<'a>, key: &[u32], probe: &Probe<'_>) -> (usize, Rows<'a>)
    requires few { length probe.now ≤ length key.now }
    requires in_order { IsStrictlySortedBy (block_cmp key.now) rows.now }
    ensures { IsSpan key.now rows.now probe.now result.0 result.1 }
{
    span_from(rows, key, probe, start_of(rows, key, probe))
}
