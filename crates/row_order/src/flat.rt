//! A sort of small items: each tells a row's first values in block order and its place, so that few rows are read.
ghost use Rattle.std.specs.Prelude.{◌≡◌, slice_index_or};
ghost use Rattle.std.specs.Ordering.{ordering_then, nat_cmp};
ghost use Rattle.cqa_value.specs.Values.{block_cmp};

use crate::compare::block_compare;
use cqa_value::{NOTHING, NoMemory, Row, Value};
use std::alloc::Global;
use std::cmp::Ordering;

/// How many bytes of a text its number tells.
const TOLD: usize = 8;

/// The number that stands for the integer 0.
const ZERO: u64 = 1 << 63;

/// Numbers for the two values of a row that come first in block order, and the row's place, from 0.
#[derive(Clone, Copy)]
struct Told {
    first: u64,
    second: u64,
    place: u32,
}

/// The first bytes of a text as a number in base 256; a byte that isn't there counts as 0.
fn first_bytes(text: &[u8]) -> u64 {
    let mut number = 0u64;
    for at in 0..TOLD {
        let byte = *text.get(at).unwrap_or(&0);
        number = number.wrapping_mul(256).wrapping_add(u64::from(byte));
    }
    number
}

/// A number for a value. Of two values of one kind, the lower one mostly has no greater number. Nothing is promised of it.
fn number_of(value: &Value) -> u64 {
    match value {
        Value::Int(number) if *number < 0 => ZERO.saturating_sub(number.unsigned_abs()),
        Value::Int(number) => ZERO.saturating_add(number.unsigned_abs()),
        Value::Text(text) => first_bytes(text.bytes()),
    }
}

/// Whether a value's number tells it from others of its kind. A text with a byte 0 may be taken for another.
fn is_told(value: &Value) -> bool {
    match value {
        Value::Int(_) => true,
        Value::Text(text) => text.bytes().len() < TOLD,
    }
}

/// The two columns that come first in block order.
fn first_columns(key: &[u32]) -> (u32, u32) {
    let first = *key.first().unwrap_or(&0);
    let other = if first == 0 { 1 } else { 0 };
    (first, *key.get(1).unwrap_or(&other))
}

/// The numbers of a row's values in two columns. The second counts only where the first tells its value.
fn numbers_of(row: &Row, column: u32, next: u32) -> (u64, u64) {
    let first = number_of(row.at_or(column, &NOTHING));
    if !is_told(row.at_or(column, &NOTHING)) {
        return (first, 0);
    }
    (first, number_of(row.at_or(next, &NOTHING)))
}

/// What is told of each row. Nothing is promised of it.
fn items_of(alloc: Global, rows: &[Row], key: &[u32]) -> Result<Vec<Told>, NoMemory> {
    let (column, next) = first_columns(key);
    let mut items = Vec::with_capacity(alloc, rows.len())?;
    for (row, place) in rows.iter().zip(0..u32::MAX) {
        let (first, second) = numbers_of(row, column, next);
        items.push(Told {
            first,
            second,
            place,
        })?;
    }
    Ok(items)
}

/// Compares the rows at two places by block order; a place without a row counts as another row.
fn compare_places(rows: &[Row], key: &[u32], none: &Row, a: u32, b: u32) -> Ordering
    ensures { result ≡ block_cmp key.now (slice_index_or rows.now a none.now) (slice_index_or rows.now b none.now) }
{
    block_compare(
        key,
        rows.get(a as usize).unwrap_or(none),
        rows.get(b as usize).unwrap_or(none),
    )
}

/// Compares two items by their numbers, and where these are the same by the rows at their places.
fn compare_told(rows: &[Row], key: &[u32], none: &Row, a: &Told, b: &Told) -> Ordering
    ensures { result ≡ ordering_then (nat_cmp a.now.first b.now.first) (ordering_then (nat_cmp a.now.second b.now.second) (block_cmp key.now (slice_index_or rows.now a.now.place none.now) (slice_index_or rows.now b.now.place none.now))) }
{
    let told = a.first.cmp(&b.first).then(a.second.cmp(&b.second));
    if told.is_ne() {
        return told;
    }
    compare_places(rows, key, none, a.place, b.place)
}

/// The places that items tell, as a list of few bytes each, since it is read at random.
fn places_of(alloc: Global, items: &[Told]) -> Result<Vec<u32>, NoMemory> {
    let mut places = Vec::with_capacity(alloc, items.len())?;
    for item in items {
        places.push(item.place)?;
    }
    Ok(places)
}

/// The places of rows, mostly in block order. Nothing is promised of them.
///
/// # Errors
///
/// `NoMemory` where memory is refused.
pub fn flat_sorted(alloc: Global, rows: &[Row], key: &[u32]) -> Result<Vec<u32>, NoMemory> {
    let mut items = items_of(alloc, rows, key)?;
    let none = Row::new(alloc);
    items.sort_unstable_by(|a, b| -> Ordering { compare_told(rows, key, &none, a, b) });
    places_of(alloc, items.as_slice())
}
