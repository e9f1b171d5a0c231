//! Lists of two small integers, each told by a code, so that no row is looked at again.

ghost use Rattle.std.specs.Prelude.{◌≡◌, ◌+◌, ◌<◌, ◌≤◌, MatchOption, Some, [], ◌∷◌};
ghost use Rattle.cqa_value.specs.declared.value.Value.TheVariants.{Int};
ghost use Rattle.cqa_model.specs.Database.{key_of};
ghost use Rattle.weak_pairs.specs.Packing.{bucket_of_code, integer_of, list_of};
ghost use Rattle.weak_pairs.specs.declared.packed.TheConstants.{SHIFT};

use cqa_value::{NOTHING, Row, Value};

/// How far below 0 the least small integer is. The greatest is this less 2.
const HALF: i64 = 2_147_483_648;

/// What the first integer of a code is multiplied by.
const SHIFT: u64 = 4_294_967_296;

/// Spreads codes over buckets.
const MULTIPLIER: u64 = 0x9e37_79b9_7f4a_7c15;

/// How far a value is above the least small integer, if it is a small integer.
fn small(value: &Value) -> Option<u64>
    ensures { MatchOption result (Unit {0}) (λ n. (n + 1 < SHIFT) × (value.now ≡ Int (integer_of n))) }
{
    match value {
        Value::Int(number) => {
            if *number < -HALF || *number > HALF - 2 {
                return None;
            }
            Some((*number + HALF) as u64)
        }
        Value::Text(_) => None,
    }
}

/// The code of two small integers.
fn joined(first: u64, second: u64) -> u64
    requires first { first + 1 < SHIFT }
    requires second { second + 1 < SHIFT }
    ensures { list_of result ≡ Some (Int (integer_of first) ∷ Int (integer_of second) ∷ []) }
{
    first * SHIFT + second + 1
}

/// The code of a row's values in some columns, where these are two and the values are small.
pub fn code(row: &Row, columns: &[u32]) -> Option<u64>
    ensures { MatchOption result (Unit {0}) (λ c. list_of c ≡ Some (key_of columns.now row.now)) }
{
    if columns.len() != 2 {
        return None;
    }
    let first = small(row.at_or(columns[0], &NOTHING))?;
    let second = small(row.at_or(columns[1], &NOTHING))?;
    Some(joined(first, second))
}

/// The bucket of a code; 0 is in none. The upper half of the product is spread over the buckets, without a division.
pub(crate) fn bucket(code: u64, buckets: usize) -> usize
    requires some { 0 < buckets }
    requires few { buckets < SHIFT }
    ensures is { result ≡ bucket_of_code buckets code }
    ensures within { result ≤ buckets }
{
    if code == 0 {
        return buckets;
    }
    let upper = code.wrapping_mul(MULTIPLIER) / SHIFT;
    (upper * buckets as u64 / SHIFT) as usize
}
