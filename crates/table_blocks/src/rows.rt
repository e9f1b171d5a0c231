//! Rows in block order: how a row is found, how rows are put in another order, and how they are taken out.
//! Nothing is compared that its place or its key tells.
ghost use Rattle.std.specs.Prelude.{◌≡◌, ◌≤◌, ◌+◌, ◌↔◌, IsTrue, MatchOption, OnErr, IfOk, Ok, Some, None, if◌then◌else◌, slice_get, Contains, length};
ghost use Rattle.std.specs.List.Sorted.{IsStrictlySortedBy};
ghost use Rattle.std.specs.Ordering.{is_lt};
ghost use Rattle.cqa_model.specs.Database.{AreConsistent, block_cmp};
ghost use Rattle.row_order.specs.Ordered.{block_order};
ghost use Rattle.table_blocks.specs.Keys.{first_clash};
ghost use Rattle.table_blocks.specs.Tables.{IsPlace, IsSpared, IsToldStretch, TestsHold};

use crate::clash::{Clash, clash_of};
use crate::search::{first_keyed, parted, second_keyed};
use crate::span::rows_with;
use crate::test::{ColumnTest, known_key, passes_all};
use cqa_value::{NoMemory, Row};
use row_order::{block_compare, put_in_order};
use row_pieces::{Pieces, Rows};
use std::alloc::Global;

/// Whether no two rows were found that share the key.
fn is_clear(found: &Result<Option<Clash>, NoMemory>) -> bool
    ensures { IsTrue result ↔ (found.now ≡ Ok None) }
{
    matches!(found, Ok(None))
}

/// Puts rows in the block order of another key, unless a strict table would have two rows of one key: then this gives the
/// first two rows of the first block of more than one row, and the rows stand as before.
///
/// # Errors
///
/// `NoMemory` where memory is refused. The rows stand as before then.
fn reorder(
    rows: &mut Vec<Row>,
    old_key: &[u32],
    key: &[u32],
    strict: bool,
) -> Result<Option<Clash>, NoMemory>
    requires { IsStrictlySortedBy (block_cmp old_key.now) rows.old.items }
    ensures clash { IfOk result (λ clash. clash ≡ (if strict then first_clash key.now (block_order key.now rows.old.items) else None)) }
    ensures changed { IfOk result (λ clash. MatchOption clash ((rows.new.items ≡ block_order key.now rows.old.items) × (IsTrue strict → AreConsistent key.now rows.new.items)) (λ _. rows.new.items ≡ rows.old.items)) }
    ensures err { OnErr result (rows.new.items ≡ rows.old.items) }
    ensures as_many { length rows.new.items ≡ length rows.old.items }
{
    put_in_order(rows, key);
    if !strict {
        return Ok(None);
    }
    let ordered = Rows::over(rows.as_slice());
    let found = clash_of(*rows.allocator(), &ordered, key);
    if !is_clear(&found) {
        put_in_order(rows, old_key);
    }
    found
}

/// As many rows without values as are asked for.
fn blank_rows(alloc: Global, count: usize) -> Result<Vec<Row>, NoMemory>
    ensures { IfOk result (λ rows. length rows.items ≡ count) }
{
    let mut rows = Vec::new(alloc);
    rows.resize_with(count, || -> Row { Row::new(alloc) })?;
    Ok(rows)
}

/// Puts a table's rows in the block order of another key, unless a strict table would have two rows of one key: then this
/// gives the first two rows of the first block of more than one row. The rows change places with blank ones while they are
/// sorted.
///
/// # Errors
///
/// `NoMemory` where memory is refused. The rows stand as before then, and where two are given.
pub fn put_in_order_of(
    rows: &mut Pieces,
    old_key: &[u32],
    key: &[u32],
    strict: bool,
) -> Result<Option<Clash>, NoMemory>
    requires { IsStrictlySortedBy (block_cmp old_key.now) rows.old }
    ensures clash { IfOk result (λ clash. clash ≡ (if strict then first_clash key.now (block_order key.now rows.old) else None)) }
    ensures changed { IfOk result (λ clash. MatchOption clash ((rows.new ≡ block_order key.now rows.old) × (IsTrue strict → AreConsistent key.now rows.new)) (λ _. rows.new ≡ rows.old)) }
    ensures err { OnErr result (rows.new ≡ rows.old) }
    ensures as_many { length rows.new ≡ length rows.old }
{
    let mut taken = blank_rows(rows.allocator(), rows.rows().len())?;
    rows.exchange(taken.as_mut_slice());
    let done = reorder(&mut taken, old_key, key, strict);
    rows.exchange(taken.as_mut_slice());
    drop(taken);
    done
}

/// How many rows stand before a row's place.
pub fn place_in(rows: &Rows<'_>, key: &[u32], row: &Row) -> usize
    ensures within { result ≤ length rows.now }
    ensures place { IsStrictlySortedBy (block_cmp key.now) rows.now → IsPlace (block_cmp key.now) rows.now row.now result }
{
    parted(
        rows,
        first_keyed(key, row),
        second_keyed(key, row),
        |other| -> bool
            ensures { result ≡ is_lt (block_cmp key.entry.now other.now row.entry.now) }
        { block_compare(key, other, row).is_lt() },
    )
}

/// The place of a row, if it is there.
pub fn find_in(rows: &Rows<'_>, key: &[u32], row: &Row) -> Option<usize>
    requires { IsStrictlySortedBy (block_cmp key.now) rows.now }
    ensures { MatchOption result (Contains rows.now row.now → ⊥) (λ at. slice_get rows.now at ≡ Some row.now) }
{
    let at = place_in(rows, key, row);
    if rows.stands(at, row) { Some(at) } else { None }
}

/// Sorted rows that aren't stored, and the place of each among the stored ones.
#[derive(Drop)]
pub struct Fresh {
    pub rows: Vec<Row>,
    pub places: Vec<usize>,
}

/// The places from which on and up to which rows stand that have the first key values which tests tell.
pub fn told_places(rows: &Rows<'_>, key: &[u32], tests: &[ColumnTest]) -> (usize, usize)
    requires in_order { IsStrictlySortedBy (block_cmp key.now) rows.now }
    ensures told { IsToldStretch key.now rows.now tests.now result.0 result.1 }
    ensures within { result.1 ≤ length rows.now }
{
    let probe = known_key(key, tests);
    let (from, told) = rows_with(rows, key, &probe);
    drop(probe);
    prove!(from <= rows.len());
    (from, from + told.len())
}

/// Takes the rows away for which all tests hold. Those alone are tried that have the first key values that the tests tell.
pub fn remove(rows: &mut Pieces, key: &[u32], tests: &[ColumnTest])
    requires { IsStrictlySortedBy (block_cmp key.now) rows.old }
    ensures spared { IsSpared key.now rows.old tests.now rows.new }
    ensures fewer { length rows.new ≤ length rows.old }
{
    let (from, to) = told_places(&rows.rows(), key, tests);
    rows.retain_in(
        from,
        to,
        |row| -> bool
            ensures { IsTrue result ↔ (TestsHold tests.entry.now row.now → ⊥) }
        { !passes_all(row, tests) },
    );
}
