//! Buckets by order: the bucket of a row's list is how many rows have lesser lists.
//! They cost a sort, and no values bring different lists into one bucket.

ghost use Rattle.std.specs.Prelude.{◌≡◌, ◌<◌, IfOk, length};
ghost use Rattle.std.specs.List.Sorted.{IsPermutation, IsSortedBy};
ghost use Rattle.std.specs.Ordering.{is_lt};
ghost use Rattle.weak_pairs.specs.Digests.{lists_in};
ghost use Rattle.weak_pairs.specs.EdgeNumbers.{AreBuckets, HaveOne};
ghost use Rattle.weak_pairs.specs.Ranks.{AreInOrder, IsRank, list_cmp};

use crate::lists::Lists;
use cqa_value::NoMemory;
use std::alloc::Global;
use std::cmp::Ordering;

/// Puts rows in the order of their lists.
fn put_in_order(lists: &Lists<'_>, places: &mut Vec<u32>)
    ensures same { IsPermutation places.old.items places.new.items }
    ensures sorted { IsSortedBy (λ i j. is_lt (list_cmp lists.now.form i j)) places.new.items }
{
    places.sort_unstable_by(
        |i, j| -> Ordering
            ensures { result ≡ list_cmp lists.entry.now.form i.now j.now }
        { lists.compare(*i, *j) },
    );
}

/// All rows in the order of their lists.
fn in_order(alloc: Global, lists: &Lists<'_>) -> Result<Vec<u32>, NoMemory>
    ensures { IfOk result (λ order. AreInOrder lists.now.form order.items) }
{
    let mut order = Vec::with_capacity(alloc, lists.len())?;
    for at in 0..lists.len() as u32 {
        order.push(at)?;
    }
    put_in_order(lists, &mut order);
    Ok(order)
}

/// The bucket of a row: how many rows have a list that is less than its own. A row without a list is in none.
fn bucket(lists: &Lists<'_>, order: &[u32], at: u32) -> u32
    requires there { at < length (lists_in lists.now.form) }
    requires ordered { AreInOrder lists.now.form order.now }
    ensures { HaveOne (lists_in lists.now.form) at at → IsRank lists.now.form order.now at result × (result < length (lists_in lists.now.form)) }
{
    if !lists.have_one(at, at) {
        return lists.len() as u32;
    }
    order.partition_point(
        |place| -> bool
            ensures { result ≡ is_lt (list_cmp lists.entry.now.form place.now at) }
        { lists.compare(*place, at).is_lt() },
    ) as u32
}

/// The bucket of each row by the order of lists. (This is rare, so it stays out of the loop that calls it.)
#[inline(never)]
pub(crate) fn ranks(alloc: Global, lists: &Lists<'_>) -> Result<Vec<u32>, NoMemory>
    ensures { IfOk result (λ ranks. AreBuckets (lists_in lists.now.form) ranks.items) }
{
    let order = in_order(alloc, lists)?;
    let mut ranks = Vec::with_capacity(alloc, lists.len())?;
    for at in 0..lists.len() as u32 {
        ranks.push(bucket(lists, &order, at))?;
    }
    Ok(ranks)
}
