//! The candidates of a union: the rows that have a witness for some part. They are the possible rows of the union.

ghost use Rattle.std.specs.Prelude.{◌≡◌, ◌⊎◌, ◌↔◌, [], IfOk, IsTrue, List, Contains, length};
ghost use Rattle.std.specs.List.Sorted.{IsStrictlySortedBy};
ghost use Rattle.cqa_value.specs.declared.value.Value.{Value as Cell};
ghost use Rattle.cqa_value.specs.Values.{row_cmp};
ghost use Rattle.cqa_model.specs.Certain.{IsCandidate};
ghost use Rattle.cqa_model.specs.Unions.{IsCandidateIn};
ghost use Rattle.union_ask.specs.Candidates.{AreCandidatesIn, IsPossibleUnionAnswer};

use cqa_value::{Items, NoMemory, Row};
use join_witness::candidates;
use part_search::BoundParts;
use row_answers::Answers;
use std::alloc::Global;
use table_blocks::Bound;

/// The first place from one on whose row isn't before another; the end where there is none.
fn place_from(rows: &[Row], at: usize, row: &Row) -> usize {
    for place in at..rows.len() {
        if rows[place] >= *row {
            return place;
        }
    }
    rows.len()
}

/// Whether a row stands at a place.
fn stands_at(rows: &[Row], at: usize, row: &Row) -> bool
    ensures { IsTrue result → Contains rows.now row.now }
{
    match rows.get(at) {
        Some(other) => other == row,
        None => false,
    }
}

/// Puts a row behind others, unless it stands at the first place from one on whose row isn't before it. Answers that place.
fn put_row(row: Row, at: usize, rows: &mut Vec<Row>) -> Result<usize, NoMemory>
    ensures { IfOk result (λ place. (other : List Cell) → Contains rows.new.items other ↔ (Contains rows.old.items other ⊎ (row ≡ other))) }
{
    let place = place_from(rows.as_slice(), at, &row);
    if stands_at(rows.as_slice(), place, &row) {
        drop(row);
    } else {
        rows.push(row)?;
    }
    Ok(place)
}

/// Puts more rows behind others. Where both ascend, none is put there twice, and each list is gone over once.
fn put_rows(more: Vec<Row>, rows: &mut Vec<Row>) -> Result<(), NoMemory>
    ensures { IfOk result (λ done. (row : List Cell) → Contains rows.new.items row ↔ (Contains rows.old.items row ⊎ Contains more.items row)) }
{
    let mut at = 0;
    for row in more {
        at = put_row(row, at, rows)?;
    }
    Ok(())
}

/// Puts the candidates of a query behind other rows.
fn put_candidates(alloc: Global, bound: &Bound<'_>, rows: &mut Vec<Row>) -> Result<(), NoMemory>
    ensures { IfOk result (λ done. (row : List Cell) → Contains rows.new.items row ↔ (Contains rows.old.items row ⊎ IsCandidate bound.now.db.now bound.now.query.now row)) }
{
    let more = candidates(alloc, bound)?.into_vec();
    put_rows(more, rows)
}

/// Puts the candidates of all parts into an empty list.
fn gather_candidates(
    alloc: Global,
    parts: &BoundParts<'_>,
    rows: &mut Vec<Row>,
) -> Result<(), NoMemory>
    requires none { rows.old.items ≡ [] }
    ensures { IfOk result (λ done. (row : List Cell) → Contains rows.new.items row ↔ IsCandidateIn parts.now.db.now parts.now.queries.now row) }
{
    for query in parts.queries {
        let bound = Bound::new(parts.db, query);
        put_candidates(alloc, &bound, rows)?;
    }
    Ok(())
}

/// Puts rows into a list of answers.
fn put_all(rows: Vec<Row>, answers: &mut Answers) -> Result<(), NoMemory>
    ensures { IfOk result (λ done. (row : List Cell) → Contains answers.new row ↔ (Contains answers.old row ⊎ Contains rows.items row)) }
{
    for row in rows {
        answers.put(row)?;
    }
    Ok(())
}

/// Rows, ascending and each once.
fn ordered(alloc: Global, rows: Vec<Row>) -> Result<Items<Row>, NoMemory>
    ensures ascending { IfOk result (IsStrictlySortedBy row_cmp) }
    ensures same { IfOk result (λ list. (row : List Cell) → Contains list row ↔ Contains rows.items row) }
{
    let mut answers = Answers::new(alloc);
    match put_all(rows, &mut answers) {
        Ok(()) => Ok(answers.listed()),
        Err(fault) => {
            drop(answers);
            Err(fault)
        }
    }
}

/// The candidates of several parts.
fn candidates_of_all(alloc: Global, parts: &BoundParts<'_>) -> Result<Items<Row>, NoMemory>
    ensures { IfOk result (AreCandidatesIn parts.now.db.now parts.now.queries.now) }
{
    let mut rows = Vec::new(alloc);
    match gather_candidates(alloc, parts, &mut rows) {
        Ok(()) => {
            let list = ordered(alloc, rows)?;
            Ok(list)
        }
        Err(fault) => {
            drop(rows);
            Err(fault)
        }
    }
}

/// The candidates of the only part, which come in order.
fn candidates_of_one(alloc: Global, parts: &BoundParts<'_>) -> Result<Items<Row>, NoMemory>
    requires { length parts.now.queries.now ≡ 1 }
    ensures { IfOk result (AreCandidatesIn parts.now.db.now parts.now.queries.now) }
{
    let bound = Bound::new(parts.db, &parts.queries[0]);
    let list = candidates(alloc, &bound)?;
    Ok(list)
}

/// The candidates of all parts, ascending and each once.
fn listed(alloc: Global, parts: &BoundParts<'_>) -> Result<Items<Row>, NoMemory>
    ensures { IfOk result (AreCandidatesIn parts.now.db.now parts.now.queries.now) }
{
    if parts.queries.len() == 1 {
        candidates_of_one(alloc, parts)
    } else {
        candidates_of_all(alloc, parts)
    }
}

/// The rows that have a witness for some part among the stored rows, ascending and each once: the possible rows of the union.
///
/// # Errors
///
/// `NoMemory` where memory is refused.
pub fn union_candidates(alloc: Global, parts: &BoundParts<'_>) -> Result<Items<Row>, NoMemory>
    ensures candidates { IfOk result (AreCandidatesIn parts.now.db.now parts.now.queries.now) }
    ensures possible { IfOk result (IsPossibleUnionAnswer parts.now.db.now parts.now.queries.now) }
{
    let list = listed(alloc, parts)?;
    Ok(list)
}
