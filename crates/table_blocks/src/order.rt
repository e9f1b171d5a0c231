//! Rows by some first key values: they are found by halving in this order.
ghost use Rattle.std.specs.Prelude.{◌≡◌, ◌≤◌, length};
ghost use Rattle.row_order.specs.Spans.{probe_cmp};

use cqa_value::{NOTHING, Row, compare};
use row_order::Probe;
use std::cmp::Ordering;

/// Compares the first key values of a row with a probe.
pub fn compare_key(key: &[u32], probe: &Probe<'_>, row: &Row) -> Ordering
    requires { length probe.now ≤ length key.now }
    ensures { result ≡ probe_cmp key.now probe.now row.now }
{
    for at in 0..probe.len() {
        let ordering = compare(row.at_or(key[at], &NOTHING), probe.get(at));
        if ordering != Ordering::Equal {
            return ordering;
        }
    }
    Ordering::Equal
}
