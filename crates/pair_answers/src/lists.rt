//! The values of rows in the columns of the variables that both atoms have.
//! Rows of different atoms that fit stand together in a witness exactly where these are the same.

ghost use Rattle.std.specs.Prelude.{◌≡◌, ◌+◌, ◌≤◌, [], IfOk, IsTrue, IfSome, length, map};
ghost use Rattle.cqa_model.specs.declared.limits.TheConstants.{MOST_ROWS};
ghost use Rattle.cqa_model.specs.Database.{stored};
ghost use Rattle.weak_pairs.specs.Digests.{lists_in};
ghost use Rattle.weak_pairs.specs.Packing.{list_of as listed};
ghost use Rattle.pair_answers.specs.Shared.{pairs_of};
ghost use Rattle.pair_answers.specs.Lists.{AreColumnPairs, AreListsAdded, AreRowLists, IsListOf, columns_of_side};

use crate::fits::fits;
use crate::pair::PairQuery;
use crate::shared::{Shared, shared_columns};
use crate::side::Side;
use cqa_value::{NoMemory, Row};
use row_pieces::Rows;
use std::alloc::Global;
use weak_pairs::{ListForm, Lists, Picked, code};

/// The columns of each atom of variables that both have, in one order.
#[derive(Drop)]
pub(crate) struct Columns {
    pub left: Vec<u32>,
    pub right: Vec<u32>,
}

/// The columns of an atom among pairs of columns.
fn columns_of(alloc: Global, cols: &[Shared], atom: u32) -> Result<Vec<u32>, NoMemory>
    ensures { IfOk result (λ columns. columns.items ≡ columns_of_side atom (pairs_of cols.now)) }
{
    let mut columns = Vec::new(alloc);
    for col in cols {
        columns.push(if atom == 0 { col.left } else { col.right })?;
    }
    Ok(columns)
}

/// The columns of each atom of variables that both have.
///
/// # Errors
///
/// `NoMemory` where memory is refused.
pub(crate) fn both_columns(alloc: Global, pair: &PairQuery<'_>) -> Result<Columns, NoMemory>
    ensures { IfOk result (λ columns. AreColumnPairs pair.now.bound.now.query.now columns.left.items columns.right.items) }
{
    let cols = shared_columns(alloc, pair)?;
    let left = columns_of(alloc, &cols, 0)?;
    let right = columns_of(alloc, &cols, 1)?;
    Ok(Columns { left, right })
}

/// The list of each row of both tables, atom by atom in block order: by codes where each row that fits has one.
///
/// # Errors
///
/// `NoMemory` where memory is refused.
pub(crate) fn row_lists<'a>(
    alloc: Global,
    pair: &PairQuery<'a>,
    row: &Row,
    columns: &'a Columns,
) -> Result<Lists<'a>, NoMemory>
    requires { AreColumnPairs pair.now.bound.now.query.now columns.now.left.items columns.now.right.items }
    ensures { IfOk result (λ lists. AreRowLists pair.now.bound.now.query.now (stored pair.now.bound.now.db.now) row.now (lists_in lists.form)) }
{
    match packed_lists(alloc, pair, row, columns)? {
        Some(codes) => Ok(Lists {
            form: ListForm::Packed(codes),
        }),
        None => {
            let lists = borrowed_lists(alloc, pair, row, columns)?;
            Ok(Lists {
                form: ListForm::Borrowed(lists),
            })
        }
    }
}

/// The list of each row of both tables by its code, if each row that fits has one.
///
/// # Errors
///
/// `NoMemory` where memory is refused.
fn packed_lists(
    alloc: Global,
    pair: &PairQuery<'_>,
    row: &Row,
    columns: &Columns,
) -> Result<Option<Vec<u64>>, NoMemory>
    requires { AreColumnPairs pair.now.bound.now.query.now columns.now.left.items columns.now.right.items }
    ensures lists { IfOk result (λ found. IfSome found (λ codes. AreRowLists pair.now.bound.now.query.now (stored pair.now.bound.now.db.now) row.now (map listed codes.items))) }
    ensures few { IfOk result (λ found. IfSome found (λ codes. length (map listed codes.items) ≤ MOST_ROWS + MOST_ROWS)) }
{
    let bound = pair.bound;
    let first = bound.rows_of(0).len();
    let second = bound.rows_of(1).len();
    let mut codes = Vec::with_capacity(alloc, first + second)?;
    if append_all_codes(pair, row, columns, &mut codes)? {
        return Ok(Some(codes));
    }
    Ok(None)
}

/// Appends the code of the list of each row of both tables, as long as rows that fit have one, and answers whether all have.
///
/// # Errors
///
/// `NoMemory` where memory is refused.
fn append_all_codes(
    pair: &PairQuery<'_>,
    row: &Row,
    columns: &Columns,
    codes: &mut Vec<u64>,
) -> Result<bool, NoMemory>
    requires columns { AreColumnPairs pair.now.bound.now.query.now columns.now.left.items columns.now.right.items }
    requires none { codes.old.items ≡ [] }
    ensures lists { IfOk result (λ all. IsTrue all → AreRowLists pair.now.bound.now.query.now (stored pair.now.bound.now.db.now) row.now (map listed codes.new.items)) }
    ensures few { IfOk result (λ all. IsTrue all → length (map listed codes.new.items) ≤ MOST_ROWS + MOST_ROWS) }
{
    let bound = pair.bound;
    let first = bound.rows_of(0);
    let second = bound.rows_of(1);
    if !append_codes(&Side::new(bound, row, 0, &columns.left), &first, codes)? {
        return Ok(false);
    }
    let all = append_codes(&Side::new(bound, row, 1, &columns.right), &second, codes)?;
    Ok(all)
}

/// Appends the code of the list of each row of an atom, as long as rows that fit have one, and answers whether all have.
///
/// # Errors
///
/// `NoMemory` where memory is refused.
fn append_codes(
    side: &Side<'_, '_>,
    rows: &Rows<'_>,
    codes: &mut Vec<u64>,
) -> Result<bool, NoMemory>
    ensures { IfOk result (λ all. IsTrue all → AreListsAdded side.now.bound.now.query.now side.now.row.now side.now.columns.now side.now.atom rows.now (length rows.now) (map listed codes.old.items) (map listed codes.new.items)) }
{
    for x in rows.again() {
        let Some(code) = code_of(side, x) else {
            return Ok(false);
        };
        codes.push(code)?;
    }
    Ok(true)
}

/// The code of the list of a row, if it has one: 0 where it doesn't fit.
fn code_of(side: &Side<'_, '_>, x: &Row) -> Option<u64>
    ensures { IfSome result (λ c. IsListOf side.now.bound.now.query.now side.now.row.now side.now.columns.now side.now.atom x.now (listed c)) }
{
    if !fits(side, x) {
        return Some(0);
    }
    code(x, side.columns)
}

/// The list of each row of both tables, borrowed from it.
///
/// # Errors
///
/// `NoMemory` where memory is refused.
fn borrowed_lists<'a>(
    alloc: Global,
    pair: &PairQuery<'a>,
    row: &Row,
    columns: &'a Columns,
) -> Result<Vec<Option<Picked<'a>>>, NoMemory>
    requires { AreColumnPairs pair.now.bound.now.query.now columns.now.left.items columns.now.right.items }
    ensures lists { IfOk result (λ lists. AreRowLists pair.now.bound.now.query.now (stored pair.now.bound.now.db.now) row.now lists.items) }
    ensures few { IfOk result (λ lists. length lists.items ≤ MOST_ROWS + MOST_ROWS) }
{
    let bound = pair.bound;
    let first = bound.rows_of(0);
    let second = bound.rows_of(1);
    let mut lists = Vec::with_capacity(alloc, first.len() + second.len())?;
    append_lists(&Side::new(bound, row, 0, &columns.left), &first, &mut lists)?;
    append_lists(
        &Side::new(bound, row, 1, &columns.right),
        &second,
        &mut lists,
    )?;
    Ok(lists)
}

/// Appends the list of each row of an atom: its values in these columns, where it fits.
///
/// # Errors
///
/// `NoMemory` where memory is refused.
fn append_lists<'a>(
    side: &Side<'a, '_>,
    rows: &Rows<'a>,
    lists: &mut Vec<Option<Picked<'a>>>,
) -> Result<(), NoMemory>
    ensures { IfOk result (λ _. AreListsAdded side.now.bound.now.query.now side.now.row.now side.now.columns.now side.now.atom rows.now (length rows.now) lists.old.items lists.new.items) }
{
    for x in rows.again() {
        lists.push(list_of(side, x))?;
    }
    Ok(())
}

/// The list of a row, where it fits.
fn list_of<'a>(side: &Side<'a, '_>, x: &'a Row) -> Option<Picked<'a>>
    ensures { IsListOf side.now.bound.now.query.now side.now.row.now side.now.columns.now side.now.atom x.now result }
{
    if !fits(side, x) {
        return None;
    }
    Some(Picked::new(x, side.columns))
}
