//! Block order: rows by their key values, and rows of one key by all values.
ghost use Rattle.std.specs.Prelude.{◌≡◌, slice_index_or};
ghost use Rattle.cqa_value.specs.Values.{nothing, value_cmp, row_cmp, key_of, block_cmp};

use cqa_value::{NOTHING, Row, compare};
use std::cmp::Ordering;

/// Compares two rows in one column; a row that is too narrow counts as 0 there.
fn compare_at(place: u32, a: &Row, b: &Row) -> Ordering
    ensures { result ≡ value_cmp (slice_index_or a.now place nothing) (slice_index_or b.now place nothing) }
{
    compare(a.at_or(place, &NOTHING), b.at_or(place, &NOTHING))
}

/// Compares two rows by their key values.
pub fn key_compare(key: &[u32], a: &Row, b: &Row) -> Ordering
    ensures { result ≡ row_cmp (key_of key.now a.now) (key_of key.now b.now) }
{
    for place in key {
        let ordering = compare_at(*place, a, b);
        if ordering != Ordering::Equal {
            return ordering;
        }
    }
    Ordering::Equal
}

/// Compares two rows by block order: by their key values, and only where these are the same by the whole rows.
pub fn block_compare(key: &[u32], a: &Row, b: &Row) -> Ordering
    ensures { result ≡ block_cmp key.now a.now b.now }
{
    match key_compare(key, a, b) {
        Ordering::Equal => a.cmp(b),
        other => other,
    }
}
