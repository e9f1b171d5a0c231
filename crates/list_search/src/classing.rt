//! Classes of numbered rows: rows that agree in some columns have one. A class is the number of one of its rows.
//! Rows are sorted by these columns, so that those that agree stand side by side.

ghost use Rattle.std.specs.Prelude.{◌≡◌, ◌<◌, ◌↔◌, ◌⊎◌, ℕ, Contains, length, slice_index_or, []};
ghost use Rattle.cqa_model.specs.Repairs.{SharesKey};
ghost use Rattle.row_lists.specs.Spans.{HasSpan, variables_of_spans};
ghost use Rattle.list_search.specs.Classing.{AreSingle, Marks};

use cqa_value::{NOTHING, Row, compare};
use row_blocks::goes_on;
use row_lists::numbering::{Numbering, number};
use row_pieces::Rows;
use std::cmp::Ordering;

/// Rows that have numbers, each by a span of its own, and the class of each, if it has one.
#[derive(Drop)]
pub struct Classed {
    pub rows: Numbering,
    pub classes: Vec<Option<u32>>,
    pub ghost single: { AreSingle rows.spans },
    pub ghost size: { length classes.items ≡ length (variables_of_spans rows.spans) },
}

/// Compares two rows in some columns.
fn compare_columns(columns: &[u32], a: &Row, b: &Row) -> Ordering {
    for column in columns {
        let ordering = compare(a.at_or(*column, &NOTHING), b.at_or(*column, &NOTHING));
        if ordering != Ordering::Equal {
            return ordering;
        }
    }
    Ordering::Equal
}

/// Compares the rows at two places in some columns. A place without a row comes where its number is.
fn compare_places(rows: &Rows<'_>, columns: &[u32], a: u32, b: u32) -> Ordering {
    let (a, b) = (a as usize, b as usize);
    if a < rows.len() && b < rows.len() {
        compare_columns(columns, rows.get(a), rows.get(b))
    } else {
        a.cmp(&b)
    }
}

/// Puts places in the order of their rows' columns.
pub fn put_by_columns(rows: &Rows<'_>, columns: &[u32], places: &mut Vec<u32>)
    ensures { (p : ℕ) → Contains places.new.items p ↔ Contains places.old.items p }
{
    places.sort_unstable_by(|a, b| -> Ordering { compare_places(rows, columns, *a, *b) });
}

/// The first of two places if their rows agree in some columns, or else the second.
fn first_alike(rows: &Rows<'_>, columns: &[u32], first: u32, place: u32) -> u32
    requires first { first < length rows.now }
    requires place { place < length rows.now }
    ensures one { (result ≡ first) ⊎ (result ≡ place) }
    ensures alike { SharesKey columns.now (slice_index_or rows.now result []) (slice_index_or rows.now place []) }
{
    if goes_on(rows, columns, first as usize, place as usize) {
        first
    } else {
        place
    }
}

/// Gives the rows of a slot at places the class of the first of those that agree and stand side by side.
pub fn mark_rows(
    rows: &Rows<'_>,
    columns: &[u32],
    numbered: &Numbering,
    slot: u32,
    places: &[u32],
    classes: &mut [Option<u32>],
)
    requires there { (p : ℕ) → Contains places.now p → p < length rows.now }
    requires covered { (p : ℕ) → Contains places.now p → HasSpan numbered.now.spans slot p }
    requires size { length classes.old ≡ length (variables_of_spans numbered.now.spans) }
    ensures { Marks (variables_of_spans numbered.now.spans) columns.now rows.now slot places.now classes.old classes.new }
{
    if places.is_empty() {
        return;
    }
    let mut first = places[0];
    for place in places {
        first = first_alike(rows, columns, first, *place);
        let at = number(numbered, slot, *place) - 1;
        classes[at as usize] = Some(number(numbered, slot, first));
    }
}
