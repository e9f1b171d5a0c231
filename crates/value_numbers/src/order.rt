//! The order of rows by their values in some columns.

ghost use Rattle.std.specs.Prelude.{◌≡◌};
ghost use Rattle.cqa_value.specs.Values.{row_cmp, key_of};

use cqa_value::{NOTHING, Row, compare};
use std::cmp::Ordering;

/// Compares the values of two rows, each in its columns: the first that differ decide, and else how many there are. A column
/// that a row is too narrow for has `NOTHING`.
pub fn compare_in(a: &Row, left: &[u32], b: &Row, right: &[u32]) -> Ordering
    ensures { result ≡ row_cmp (key_of left.now a.now) (key_of right.now b.now) }
{
    for at in 0..left.len().min(right.len()) {
        let ordering = compare(a.at_or(left[at], &NOTHING), b.at_or(right[at], &NOTHING));
        if ordering != Ordering::Equal {
            return ordering;
        }
    }
    left.len().cmp(&right.len())
}
