//! Rows are sorted by block order, or arranged by their first values alone, so that a sort finds them mostly in order.
ghost use Rattle.std.specs.Prelude.{◌≡◌};
ghost use Rattle.std.specs.List.Sorted.{IsPermutation, IsSorted};
ghost use Rattle.cqa_value.specs.Values.{block_cmp};

use crate::compare::block_compare;
use crate::flat::flat_sorted;
use crate::settle::settle;
use cqa_value::{NoMemory, Row};
use std::alloc::Global;
use std::cmp::Ordering;

/// Up to so many rows, arranging them costs more than it spares.
const FEW: usize = 32;

/// Whether rows stand in block order already. Nothing is promised of it.
fn stand_in_order(rows: &[Row], key: &[u32]) -> bool {
    rows.is_sorted_by(|a, b| -> bool { block_compare(key, a, b).is_le() })
}

/// Puts rows mostly in block order, each moved once, if they aren't few and don't stand so already. Nothing is promised but that they
/// are the same rows.
///
/// # Errors
///
/// `NoMemory` where memory is refused.
pub fn arrange(alloc: Global, rows: &mut [Row], key: &[u32]) -> Result<(), NoMemory>
    ensures { IsPermutation rows.old rows.new }
{
    if rows.len() <= FEW || stand_in_order(rows, key) {
        return Ok(());
    }
    let mut places = flat_sorted(alloc, rows, key)?;
    settle(rows, places.as_mut_slice());
    Ok(())
}

/// Sorts rows by block order.
pub fn sort_rows(rows: &mut [Row], key: &[u32])
    ensures permutation { IsPermutation rows.old rows.new }
    ensures sorted { IsSorted (block_cmp key.now) rows.new }
{
    rows.sort_unstable_by(
        |a, b| -> Ordering
            ensures { result ≡ block_cmp key.entry.now a.now b.now }
        { block_compare(key, a, b) },
    );
}
