//! Rows whose key is taken: which of a statement's rows a strict table refuses.
//! Nothing is changed here.
ghost use Rattle.std.specs.Prelude.{◌≡◌, ◌<◌, ◌^◌, ◌+◌, ◌++◌, List, Some, None, Contains, IsNone, IfSome, IfOk, length, filter, slice_get};
ghost use Rattle.std.specs.Option.{option_copied};
ghost use Rattle.std.specs.List.Sorted.{IsStrictlySortedBy};
ghost use Rattle.std.specs.Ordering.{is_lt};
ghost use Rattle.cqa_value.specs.declared.value.Value.{Value as Cell};
ghost use Rattle.cqa_value.specs.Values.{row_cmp};
ghost use Rattle.refusals.specs.declared.refusal.Refusal.TheVariants.{KeyTaken as Taken};
ghost use Rattle.cqa_model.specs.Database.{AreConsistent, key_of, block_cmp};
ghost use Rattle.refusals.specs.Refusal.{Checked};
ghost use Rattle.table_blocks.specs.Keys.{same_key};
ghost use Rattle.table_changes.specs.Taken.{shown, AscendByKey, first_sharing, taken_fault};

use cqa_value::{Fail, NoMemory, Row};
use refusals::Refusal;
use row_order::key_compare;
use row_pieces::Rows;
use std::alloc::Global;
use std::cmp::Ordering;
use table_blocks::{first_keyed, parted, second_keyed, shares_key};

/// Rows by their key values; those of one key in the order that they had.
fn by_key<'a>(alloc: Global, rows: &'a [Row], key: &[u32]) -> Result<Vec<&'a Row>, NoMemory>
    ensures ascending { IfOk result (λ sorted. AscendByKey key.now (shown sorted.items)) }
    ensures stable { IfOk result (λ sorted. (row : List Cell) → filter (same_key key.now row) (shown sorted.items) ≡ filter (same_key key.now row) rows.now) }
{
    let mut sorted = Vec::with_capacity(alloc, rows.len())?;
    for row in rows {
        sorted.push(row)?;
    }
    sorted.sort_by(
        |a, b| -> Ordering
            ensures { result ≡ row_cmp (key_of key.entry.now a.now.now) (key_of key.entry.now b.now.now) }
        { key_compare(key, a, b) },
    )?;
    Ok(sorted)
}

/// The first row of a statement that shares a key with a row of it, among the statement's rows by their key values.
fn first_given<'a>(sorted: &[&'a Row], key: &[u32], row: &Row) -> &'a Row
    requires ascending { AscendByKey key.now (shown sorted.now) }
    requires there { Contains (shown sorted.now) row.now }
    ensures { first_sharing key.now (shown sorted.now) row.now ≡ Some result.now }
{
    let at = sorted.partition_point(
        |other| -> bool
            ensures { result ≡ is_lt (row_cmp (key_of key.entry.now other.now.now) (key_of key.entry.now row.entry.now)) }
        { key_compare(key, other, row).is_lt() },
    );
    sorted[at]
}

/// The first of rows in block order that shares a key with a row.
fn first_stored<'a>(stored: &Rows<'a>, key: &[u32], row: &Row) -> Option<&'a Row>
    requires { IsStrictlySortedBy (block_cmp key.now) stored.now }
    ensures { option_copied result ≡ first_sharing key.now stored.now row.now }
{
    let at = parted(
        stored,
        first_keyed(key, row),
        second_keyed(key, row),
        |other| -> bool
            ensures { result ≡ is_lt (row_cmp (key_of key.entry.now other.now) (key_of key.entry.now row.entry.now)) }
        { key_compare(key, other, row).is_lt() },
    );
    if at < stored.len() {
        let other = stored.get(at);
        if shares_key(key, row, other) {
            return Some(other);
        }
    }
    None
}

/// The row that a strict table keeps of a key which a row of the statement has: the stored one, else the first given.
fn kept_row<'a>(stored: &Rows<'a>, sorted: &[&'a Row], key: &[u32], row: &Row) -> &'a Row
    requires in_order { IsStrictlySortedBy (block_cmp key.now) stored.now }
    requires ascending { AscendByKey key.now (shown sorted.now) }
    requires there { Contains (shown sorted.now) row.now }
    ensures { first_sharing key.now (stored.now ++ shown sorted.now) row.now ≡ Some result.now }
{
    match first_stored(stored, key, row) {
        Some(kept) => kept,
        None => first_given(sorted, key, row),
    }
}

/// The place of the first row of a statement that shares its key with a different one, which is stored or stands before
/// it, and that row.
fn first_taken<'a>(
    stored: &Rows<'a>,
    sorted: &[&'a Row],
    rows: &[Row],
    key: &[u32],
) -> Option<(usize, &'a Row)>
    requires in_order { IsStrictlySortedBy (block_cmp key.now) stored.now }
    requires consistent { AreConsistent key.now stored.now }
    requires ascending { AscendByKey key.now (shown sorted.now) }
    requires stable { (row : List Cell) → filter (same_key key.now row) (shown sorted.now) ≡ filter (same_key key.now row) rows.now }
    ensures none { IsNone result → (taken_fault key.now stored.now 1 rows.now ≡ None) × AreConsistent key.now (stored.now ++ rows.now) }
    ensures some { IfSome result (λ taken. IfSome (slice_get rows.now taken.0) (λ fresh. taken_fault key.now stored.now 1 rows.now ≡ Some (Taken (taken.0 + 1) taken.1.now fresh))) }
    ensures there { IfSome result (λ taken. taken.0 < length rows.now) }
{
    for (at, row) in rows.iter().enumerate() {
        let kept = kept_row(stored, sorted, key, row);
        if kept != row {
            return Some((at, kept));
        }
    }
    None
}

/// Refuses the rows of a statement of which one shares its key with a different row that is stored or stands before it.
///
/// # Errors
///
/// `NoMemory` where memory is refused; else `KeyTaken` with the first such row and the other one.
pub fn check_taken(
    alloc: Global,
    stored: &Rows<'_>,
    rows: &[Row],
    key: &[u32],
) -> Result<(), Fail<Refusal>>
    requires few { length rows.now < 2 ^ 32 }
    requires in_order { IsStrictlySortedBy (block_cmp key.now) stored.now }
    requires consistent { AreConsistent key.now stored.now }
    ensures { Checked result (taken_fault key.now stored.now 1 rows.now) (λ _. AreConsistent key.now (stored.now ++ rows.now)) }
{
    let sorted = by_key(alloc, rows, key)?;
    let taken = first_taken(stored, sorted.as_slice(), rows, key);
    drop(sorted);
    let Some((at, kept)) = taken else {
        return Ok(());
    };
    let kept = kept.copy(alloc)?;
    let fresh = rows[at].copy(alloc)?;
    let row = at as u32 + 1;
    Err(Fail::Refused(Refusal::KeyTaken { row, kept, fresh }))
}
