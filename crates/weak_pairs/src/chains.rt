//! Numbering the edges of rows.
//! Rows with one list of values have one edge, and each row without a list has an edge of its own.

ghost use Rattle.std.specs.Prelude.{◌≡◌, ◌<◌, ℕ, IfOk, length, slice_index};
ghost use Rattle.weak_pairs.specs.Digests.{lists_in};
ghost use Rattle.weak_pairs.specs.EdgeNumbers.{AreBuckets, AreChainedByLists, IsLinked, IsNextNumber};
ghost use Rattle.weak_pairs.specs.Numbering.{AreEdges};

use crate::lists::Lists;
use crate::ranks::ranks;
use cqa_value::NoMemory;
use std::alloc::Global;

/// After so many comparisons of different lists for each row, buckets are made by order.
const MISSES: u64 = 16;

/// Puts a row behind those of its bucket, and answers the place behind the last one of these. `next` is the place behind the row.
fn link(last: &mut [u32], bucket: usize, next: u32) -> u32
    ensures { IsLinked last.old last.new bucket next result }
{
    if bucket >= last.len() {
        return 0;
    }
    let before = last[bucket];
    last[bucket] = next;
    before
}

/// The bucket of each row by its hash.
fn buckets(alloc: Global, lists: &Lists<'_>) -> Result<Vec<u32>, NoMemory>
    ensures { IfOk result (λ buckets. AreBuckets (lists_in lists.now.form) buckets.items) }
{
    let mut buckets = Vec::with_capacity(alloc, lists.len())?;
    for at in 0..lists.len() {
        buckets.push(lists.bucket(at) as u32)?;
    }
    Ok(buckets)
}

/// Rows chained in their buckets: for each row the place behind the last row before it in its bucket, and 0 where there is none.
fn chains(alloc: Global, lists: &Lists<'_>, buckets: Vec<u32>) -> Result<Vec<u32>, NoMemory>
    requires { AreBuckets (lists_in lists.now.form) buckets.items }
    ensures { IfOk result (λ before. AreChainedByLists (lists_in lists.now.form) before.items) }
{
    let mut ends = vec![in alloc; 0; buckets.len()]?;
    let last = ends.as_mut_slice();
    let mut before = buckets;
    for at in 0..before.len() {
        before[at] = link(last, before[at] as usize, at as u32 + 1);
    }
    Ok(before)
}

/// The number of a row's edge: that of a row before with the same list, and else the next one. What is left of `budget` goes down
/// with each row on the way that has another list.
fn number(
    lists: &Lists<'_>,
    before: &[u32],
    edge: &[u32],
    at: u32,
    count: u32,
    budget: &mut u64,
) -> u32
    requires there { at < length (lists_in lists.now.form) }
    requires chained { AreChainedByLists (lists_in lists.now.form) before.now }
    requires numbered { length edge.now ≡ at }
    ensures { IsNextNumber (lists_in lists.now.form) edge.now at count result }
{
    let mut left = before[at as usize];
    'back: while left > 0 {
        let place = left - 1;
        if lists.have_one(place, at) {
            return edge[place as usize];
        }
        *budget = budget.saturating_sub(1);
        left = before[place as usize];
    }
    count
}

/// The number of each row's edge, and how many numbers there are: rows with one list have one number, and each row without a
/// list has a number of its own. No number below that is left out.
///
/// Rows are chained by a hash. Where its buckets turn out to hold many different lists, the rest is numbered by chains in the
/// order of lists, so that no values make it slower than a sort.
///
/// # Errors
///
/// `NoMemory` where memory is refused.
pub fn edge_numbers(alloc: Global, lists: &Lists<'_>) -> Result<(Vec<u32>, u32), NoMemory>
    ensures edges { IfOk result (λ r. AreEdges (lists_in lists.now.form) (length (lists_in lists.now.form)) r.0.items) }
    ensures size { IfOk result (λ r. length r.0.items ≡ length (lists_in lists.now.form)) }
    ensures small { IfOk result (λ r. (i : ℕ) → i < length (lists_in lists.now.form) → slice_index r.0.items i < r.1) }
    ensures used { IfOk result (λ r. (e : ℕ) → e < r.1 → (i : ℕ) × (i < length (lists_in lists.now.form)) × (slice_index r.0.items i ≡ e)) }
{
    let mut before = chains(alloc, lists, buckets(alloc, lists)?)?;
    let mut edge = Vec::with_capacity(alloc, lists.len())?;
    let mut count = 0;
    let mut budget = lists.len() as u64 * MISSES;
    for at in 0..lists.len() as u32 {
        if budget == 0 {
            before = chains(alloc, lists, ranks(alloc, lists)?)?;
            budget = lists.len() as u64 * MISSES;
        }
        let e = number(lists, &before, &edge, at, count, &mut budget);
        edge.push(e)?;
        if e == count {
            count += 1;
        }
    }
    Ok((edge, count))
}
