//! Rows are moved to their places, each once.
ghost use Rattle.std.specs.List.Sorted.{IsPermutation};

use cqa_value::Row;
use std::mem::replace;

/// The place that is told for a place; from then on that is told itself. Nothing is promised of it.
fn take_place(places: &mut [u32], at: u32) -> u32 {
    match places.get_mut(at as usize) {
        Some(place) => replace(place, at),
        None => at,
    }
}

/// Moves the row to a place that is told to come there, then the one to its old place, and so on around.
fn settle_round(rows: &mut [Row], places: &mut [u32], start: u32)
    ensures { IsPermutation rows.old rows.new }
{
    let mut at = start;
    for _ in 0..rows.len() {
        let from = take_place(places, at);
        if from == start || at.max(from) as usize >= rows.len() {
            return;
        }
        rows.swap(at as usize, from as usize);
        at = from;
    }
}

/// Moves to each place the row from the place that is told for it. Whatever is told, these are the same rows.
pub fn settle(rows: &mut [Row], places: &mut [u32])
    ensures { IsPermutation rows.old rows.new }
{
    let count = u32::try_from(places.len()).unwrap_or(u32::MAX);
    for start in 0..count {
        settle_round(rows, places, start);
    }
}
