//! Rows are put in block order, each once.
ghost use Rattle.std.specs.Prelude.{◌≡◌, IsTrue};
ghost use Rattle.std.specs.List.Sorted.{IsPermutation, IsStrictlySortedBy};
ghost use Rattle.std.specs.Ordering.{is_lt};
ghost use Rattle.cqa_value.specs.Values.{block_cmp};
ghost use Rattle.row_order.specs.Ordered.{block_order};

use crate::compare::block_compare;
use crate::sort::{arrange, sort_rows};
use cqa_value::Row;
use std::alloc::Global;

/// Says yes only where each row comes before the next one in block order.
fn ascend(rows: &[Row], key: &[u32]) -> bool
    ensures { IsTrue result → IsStrictlySortedBy (block_cmp key.now) rows.now }
{
    rows.is_sorted_by(
        |a, b| -> bool
            ensures { result ≡ is_lt (block_cmp key.entry.now a.now b.now) }
        { block_compare(key, a, b).is_lt() },
    )
}

/// Arranges rows by their first values where they don't stand in block order, and says yes only where each comes before the next
/// one then. Where memory is refused, they stand as before.
fn ascend_arranged(alloc: Global, rows: &mut [Row], key: &[u32]) -> bool
    ensures permutation { IsPermutation rows.old rows.new }
    ensures ascending { IsTrue result → IsStrictlySortedBy (block_cmp key.now) rows.new }
{
    if ascend(rows, key) {
        return true;
    }
    let _arranged = arrange(alloc, rows, key);
    ascend(rows, key)
}

/// Puts rows in block order, each once. Where they stand so already, each is looked at once, and none is moved.
pub fn put_in_order(rows: &mut Vec<Row>, key: &[u32])
    ensures { rows.new.items ≡ block_order key.now rows.old.items }
{
    if ascend_arranged(*rows.allocator(), rows.as_mut_slice(), key) {
        return;
    }
    sort_rows(rows.as_mut_slice(), key);
    rows.dedup();
}
