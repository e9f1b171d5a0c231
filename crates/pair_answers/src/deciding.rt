//! Deciding a row of a pair: it is certain, or some repair holds no witness of it.
//! The rows of both tables are numbered atom by atom in block order, and the numbers are decided.

ghost use Rattle.std.specs.Prelude.{◌≡◌, ◌↔◌, IfOk, IsTrue, MatchOption, length, map, filter_map};
ghost use Rattle.cqa_model.specs.Database.{stored};
ghost use Rattle.cqa_model.specs.Certain.{IsCertain};
ghost use Rattle.pair_answers.specs.Kept.{IsPairAnswer, RejectsByNumbers, id_of};

use crate::lists::{both_columns, row_lists};
use crate::pair::PairQuery;
use crate::starts::block_starts;
use cqa_model::RowId;
use cqa_value::{Items, NoMemory, Row};
use std::alloc::Global;
use weak_pairs::laws::pair_decided;
use weak_pairs::{Decision, NumberedRows, are_certain, decide_rows};

/// A repair of a query's tables: the rows that it keeps, in `from` order and block order.
#[derive(Drop)]
pub struct Kept {
    pub rows: Items<RowId>,
}

/// `None` where the row is certain, and else a repair that holds no witness of it.
///
/// # Errors
///
/// `NoMemory` where memory is refused.
pub fn decide<'a>(
    alloc: Global,
    pair: &'a PairQuery<'a>,
    row: &Row,
) -> Result<Option<Kept>, NoMemory>
    requires { length row.now ≡ length pair.now.bound.now.query.now.answer }
    ensures { IfOk result (λ found. MatchOption found (IsCertain pair.now.bound.now.db.now pair.now.bound.now.query.now row.now) (λ kept. RejectsByNumbers pair.now.bound.now.query.now pair.now.bound.now.db.now row.now kept.rows)) }
{
    match decide_numbers(alloc, pair, row)? {
        Decision::Certain => Ok(None),
        Decision::Rejected(own) => {
            let rows = ids(alloc, pair, &own)?;
            Ok(Some(Kept { rows }))
        }
    }
}

/// Whether a row is certain. No repair is looked for, which takes about as long again where rows lie anywhere.
///
/// # Errors
///
/// `NoMemory` where memory is refused.
pub fn is_certain<'a>(alloc: Global, pair: &'a PairQuery<'a>, row: &Row) -> Result<bool, NoMemory>
    requires { length row.now ≡ length pair.now.bound.now.query.now.answer }
    ensures { IfOk result (λ certain. IsTrue certain ↔ IsCertain pair.now.bound.now.db.now pair.now.bound.now.query.now row.now) }
{
    let starts = block_starts(alloc, pair)?;
    let columns = both_columns(alloc, pair)?;
    let lists = row_lists(alloc, pair, row, &columns)?;
    pair_decided();
    let rows = NumberedRows {
        lists: &lists,
        start: &starts.first,
        blocks: starts.first.len() as u32 - 1,
        split: starts.split,
    };
    let certain = are_certain(alloc, &rows);
    drop(lists);
    certain
}

/// Decides the numbered rows.
fn decide_numbers<'a>(
    alloc: Global,
    pair: &'a PairQuery<'a>,
    row: &Row,
) -> Result<Decision, NoMemory>
    requires { length row.now ≡ length pair.now.bound.now.query.now.answer }
    ensures { IfOk result (IsPairAnswer pair.now.bound.now.query.now pair.now.bound.now.db.now row.now) }
{
    let starts = block_starts(alloc, pair)?;
    let columns = both_columns(alloc, pair)?;
    let lists = row_lists(alloc, pair, row, &columns)?;
    pair_decided();
    let rows = NumberedRows {
        lists: &lists,
        start: &starts.first,
        blocks: starts.first.len() as u32 - 1,
        split: starts.split,
    };
    decide_rows(alloc, &rows)
}

/// The names of the rows that blocks took.
fn ids(alloc: Global, pair: &PairQuery<'_>, own: &[Option<u32>]) -> Result<Items<RowId>, NoMemory>
    ensures { IfOk result (λ ids. ids ≡ map (id_of pair.now.bound.now.query.now (stored pair.now.bound.now.db.now)) (filter_map (λ row. row) own.now)) }
{
    let mut ids = Items::new(alloc);
    for row in own {
        if let Some(number) = row {
            ids.push(id(pair, *number))?;
        }
    }
    Ok(ids)
}

/// The name of a row by its number.
fn id(pair: &PairQuery<'_>, number: u32) -> RowId
    ensures { result ≡ id_of pair.now.bound.now.query.now (stored pair.now.bound.now.db.now) number }
{
    let bound = pair.bound;
    let left = bound.rows_of(0).len() as u32;
    if number < left {
        RowId {
            table: bound.table_of(0),
            place: number,
        }
    } else {
        RowId {
            table: bound.table_of(1),
            place: number - left,
        }
    }
}
