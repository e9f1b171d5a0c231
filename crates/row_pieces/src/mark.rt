//! Marks of values: numbers that tell the order of most values, so that a search looks at few rows.

ghost use Rattle.std.specs.Prelude.{◌≡◌, ◌<◌, ◌-◌, ◌^◌, Bool, List, IfSome, None, slice_index_or};
ghost use Rattle.cqa_value.specs.declared.value.Value.{Value as Cell};
ghost use Rattle.cqa_value.specs.declared.value.Value.TheVariants.{Int as IntCell};
ghost use Rattle.row_pieces.specs.declared.mark.TheConstants.{ROOM};
ghost use Rattle.row_pieces.specs.Marks.{with_bytes, value_part, value_mark, row_mark, FollowsFirst, FollowsSecond, PassesBelow, FailsAbove};

use cqa_value::{NOTHING, Row, Value};

/// How many bytes of a text its mark tells.
pub const TOLD: usize = 7;

/// How many marks there are of one integer that isn't below 0, where it is small: as many parts as second values are told by.
pub const ROOM: u64 = 1 << 31;

/// The part of the number 0. An integer that is as far from 0 or farther has the least part, or the greatest one.
pub const HALF: u64 = 1 << 30;

/// The least mark of integers that aren't below 0. One that is as far below 0 or farther has the least mark.
pub const ZERO: u64 = 1 << 62;

/// The least mark of texts.
pub const TEXTS: u64 = 3 << 62;

/// The part of a mark that a second value tells.
fn part_of(value: &Value) -> u64
    ensures is { result ≡ value_part value.now }
    ensures small { result < ROOM }
{
    match value {
        Value::Int(number) if *number < 0 => HALF.saturating_sub(number.unsigned_abs()),
        Value::Int(number) => HALF + number.unsigned_abs().min(HALF - 1),
        Value::Text(_) => ROOM - 1,
    }
}

/// The mark of an integer, with a part where there is room for it.
fn int_mark(number: i64, part: u64) -> u64
    requires { part < ROOM }
    ensures { result ≡ value_mark (IntCell number) part }
{
    let size = number.unsigned_abs();
    if number < 0 {
        return ZERO.saturating_sub(size);
    }
    let with_part = size.min(ROOM) * ROOM + part;
    ZERO + with_part.min(ZERO) + size.saturating_sub(ROOM).min(ZERO - 1)
}

/// The byte at a place of a text, or 0 where there is none.
fn byte_at(text: &[u8], at: usize) -> u8
    ensures { result ≡ slice_index_or text.now at 0 }
{
    *text.get(at).unwrap_or(&0)
}

/// The first bytes of a text as a number in base 256; a byte that isn't there counts as 0.
fn first_bytes(text: &[u8]) -> u64
    ensures value { result ≡ with_bytes 0 TOLD text.now }
    ensures small { result < 2 ^ 56 }
{
    let mut number = 0;
    for at in 0..TOLD {
        number = number * 256 + u64::from(byte_at(text, at));
    }
    number
}

/// The mark of a value with a part. What has the lower mark is the lower value, or the same one with a lower part.
fn mark_of(value: &Value, part: u64) -> u64
    requires { part < ROOM }
    ensures { result ≡ value_mark value.now part }
{
    match value {
        Value::Int(number) => int_mark(*number, part),
        Value::Text(text) => TEXTS + first_bytes(text.bytes()),
    }
}

/// The mark of a row: that of its first value, with the part of its second one.
pub fn mark_of_row(row: &Row) -> u64
    ensures { result ≡ row_mark row.now }
{
    mark_of(row.at_or(0, &NOTHING), part_of(row.at_or(1, &NOTHING)))
}

/// The mark of rows with a first and a second value.
fn mark_of_both(first: &Value, second: &Value) -> u64
    ensures is { result ≡ value_mark first.now (value_part second.now) }
    ensures least { (p : List Cell → Bool) → FollowsFirst first.now p → FollowsSecond first.now second.now p → PassesBelow result p }
    ensures greatest { (p : List Cell → Bool) → FollowsFirst first.now p → FollowsSecond first.now second.now p → FailsAbove result p }
{
    let part = part_of(second);
    mark_of(first, part)
}

/// The least and the greatest mark of rows with a first value, or with that and a second one.
pub fn marks_with(first: &Value, second: Option<&Value>) -> (u64, u64)
    ensures one { IfSome second.entry (λ then. (result.0 ≡ value_mark first.now (value_part then.now)) × (result.1 ≡ result.0)) }
    ensures all { second.entry ≡ None → (result.0 ≡ value_mark first.now 0) × (result.1 ≡ value_mark first.now (ROOM - 1)) }
    ensures least { (p : List Cell → Bool) → FollowsFirst first.now p → IfSome second.entry (λ then. FollowsSecond first.now then.now p) → PassesBelow result.0 p }
    ensures greatest { (p : List Cell → Bool) → FollowsFirst first.now p → IfSome second.entry (λ then. FollowsSecond first.now then.now p) → FailsAbove result.1 p }
{
    match second {
        Some(value) => {
            let mark = mark_of_both(first, value);
            (mark, mark)
        }
        None => {
            let least = mark_of(first, 0);
            let greatest = mark_of(first, ROOM - 1);
            (least, greatest)
        }
    }
}
