//! Which of some rows are new to a table, and where each of them goes.
//! Nothing is compared that its place or its key tells.
ghost use Rattle.std.specs.Prelude.{◌≡◌, ◌≤◌, ◌↔◌, filter, not, IfOk, List, Contains, length, take};
ghost use Rattle.std.specs.List.{AllByRecursion};
ghost use Rattle.std.specs.List.Sorted.{IsStrictlySortedBy};
ghost use Rattle.std.specs.Ordering.{is_lt};
ghost use Rattle.std.specs.declared.cmp.Ordering.TheVariants.{Less};
ghost use Rattle.cqa_value.specs.declared.value.Value.{Value as Cell};
ghost use Rattle.cqa_model.specs.Database.{block_cmp};
ghost use Rattle.table_blocks.specs.Tables.{IsPlace, ArePlaces, AreMergeable};
ghost use Rattle.table_changes.specs.Changes.{is_among, count_new};

use cqa_value::{NoMemory, Row};
use row_order::{block_compare, put_in_order};
use row_pieces::Rows;
use table_blocks::{Fresh, leading, place_in};

/// How many rows stand before a row's place, if all rows before another place are below the row, and it is expected so many
/// rows behind that: where the key doesn't begin with the first column, it is looked for from there on.
fn place_from(rows: &Rows<'_>, from: usize, reach: usize, key: &[u32], row: &Row) -> usize
    requires there { from ≤ length rows.now }
    ensures within { result ≤ length rows.now }
    ensures place { IsStrictlySortedBy (block_cmp key.now) rows.now → AllByRecursion (λ other. block_cmp key.now other row.now ≡ Less) (take from rows.now) → IsPlace (block_cmp key.now) rows.now row.now result }
{
    prove!(from <= rows.len());
    if from == rows.len() {
        return from;
    }
    if key.first() == Some(&0) {
        return place_in(rows, key, row);
    }
    let (_, rest) = rows.split_at(from);
    from + leading(
        &rest,
        reach,
        |other| -> bool
            ensures { result ≡ is_lt (block_cmp key.entry.now other.now row.entry.now) }
        { block_compare(key, other, row).is_lt() },
    )
}

/// Moves those of sorted rows that aren't stored to the front, with their places among the stored ones, and gives their
/// number.
fn fresh_first(rows: &mut [Row], places: &mut [usize], stored: &Rows<'_>, key: &[u32]) -> usize
    requires stored { IsStrictlySortedBy (block_cmp key.now) stored.now }
    requires given { IsStrictlySortedBy (block_cmp key.now) rows.old }
    requires room { length places.old ≡ length rows.old }
    ensures within { result ≤ length rows.old }
    ensures fresh { take result rows.new ≡ filter (λ row. not (is_among stored.now row)) rows.old }
    ensures placed { ArePlaces (block_cmp key.now) stored.now (filter (λ row. not (is_among stored.now row)) rows.old) (take result places.new) }
{
    let reach = stored.len() / rows.len().max(1);
    let mut fresh = 0;
    let mut from = 0;
    for at in 0..rows.len() {
        let row = &rows[at];
        from = place_from(stored, from, reach, key, row);
        if !stored.stands(from, row) {
            rows.swap(fresh, at);
            places[fresh] = from;
            fresh += 1;
        }
    }
    fresh
}

/// Those of sorted rows that aren't stored. Where nothing is stored, these are all, and no place is looked for.
fn without(mut rows: Vec<Row>, stored: &Rows<'_>, key: &[u32]) -> Result<Fresh, NoMemory>
    requires stored { IsStrictlySortedBy (block_cmp key.now) stored.now }
    requires given { IsStrictlySortedBy (block_cmp key.now) rows.items }
    ensures fresh { IfOk result (λ fresh. fresh.rows.items ≡ filter (λ row. not (is_among stored.now row)) rows.items) }
    ensures placed { IfOk result (λ fresh. ArePlaces (block_cmp key.now) stored.now fresh.rows.items fresh.places.items) }
{
    let mut places = Vec::new(*rows.allocator());
    places.resize(rows.len(), 0)?;
    if stored.is_empty() {
        return Ok(Fresh { rows, places });
    }
    let fresh = fresh_first(rows.as_mut_slice(), places.as_mut_slice(), stored, key);
    rows.truncate(fresh);
    places.truncate(fresh);
    Ok(Fresh { rows, places })
}

/// Those of some rows that aren't stored, in block order and each once.
///
/// # Errors
///
/// `NoMemory` where memory is refused.
pub fn fresh_rows(mut rows: Vec<Row>, stored: &Rows<'_>, key: &[u32]) -> Result<Fresh, NoMemory>
    requires { IsStrictlySortedBy (block_cmp key.now) stored.now }
    ensures new { IfOk result (λ fresh. (row : List Cell) → Contains fresh.rows.items row ↔ (Contains rows.items row × (Contains stored.now row → ⊥))) }
    ensures count { IfOk result (λ fresh. length fresh.rows.items ≡ count_new stored.now rows.items) }
    ensures mergeable { IfOk result (λ fresh. AreMergeable key.now stored.now fresh.rows.items fresh.places.items) }
{
    put_in_order(&mut rows, key);
    without(rows, stored, key)
}
