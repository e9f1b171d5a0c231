//! The queries of a union: few enough, each resolved, and then with answers of one length and of the same kinds.

ghost use Rattle.std.specs.Prelude.{◌≡◌, ◌<◌, ◌≤◌, [], ◌∷◌, ⊤, Some, None, MatchResult, OnOk, All, Contains, length, map};
ghost use Rattle.std.specs.List.{AllZip, zip};
ghost use Rattle.cqa_model.specs.declared.limits.TheConstants.{MOST_SELECTS};
ghost use Rattle.cqa_model.specs.declared.query.Query.{Query};
ghost use Rattle.cqa_model.specs.Query.{FitsDatabase};
ghost use Rattle.cqa_model.specs.Unions.{AreParts};
ghost use Rattle.spj_syntax.specs.declared.tree.Select.{Select};
ghost use Rattle.refusals.specs.Refusal.{Checked};
ghost use Rattle.query_resolve.specs.Checks.{answer_kinds, answers_fault, fault_by_number, first_fault, kinds_clash, part_fault, query_fault, union_fault, union_row_fault};
ghost use Rattle.query_resolve.specs.Resolved.{AreQueriesOf, IsQueryOf};

use crate::answer::{answer_kind, check_row};
use crate::faults::{kind_mismatch, limit};
use crate::query::resolve;
use cqa_model::{MOST_SELECTS, Query};
use cqa_value::{Fail, Items, Row};
use refusals::{LimitKind, Place, Refusal};
use spj_syntax::{Select, Selects};
use std::alloc::Global;
use table_blocks::{Bound, Database};

/// The queries of a union that is written, over a database's tables.
///
/// # Errors
///
/// The first that applies: `Limit` with the selects; for each part what `resolve` refuses; and then for each part from the
/// second on `WrongArity` with its number, or `TypeMismatch` with its number and the first column whose kind isn't that of the
/// first part's. `NoMemory` where memory is refused.
pub fn resolve_all(
    alloc: Global,
    db: &Database,
    selects: &Selects,
) -> Result<Items<Query>, Fail<Refusal>>
    ensures { Checked result (union_fault db.now selects.now.parts) (AreQueriesOf db.now selects.now.parts) }
{
    let written = selects.parts.as_slice();
    if written.len() > MOST_SELECTS {
        return Err(limit(LimitKind::Selects));
    }
    let parts = queries_of(alloc, db, written)?;
    check_answers(db, parts.as_slice())?;
    Ok(parts)
}

/// Whether a row has a value for each answer column of the parts of a union, of the first part's column's kind.
///
/// # Errors
///
/// `WrongArity` with row 1 where there are more or fewer values; else `TypeMismatch` with row 1 and the first column whose
/// value has another kind.
pub fn check_union_row(db: &Database, parts: &[Query], row: &Row) -> Result<(), Refusal>
    requires { AreParts parts.now db.now }
    ensures checked { MatchResult result (λ _. union_row_fault db.now parts.now row.now ≡ None) (λ e. union_row_fault db.now parts.now row.now ≡ Some e) }
    ensures long { OnOk result ((part : Query) → Contains parts.now part → length row.now ≡ length part.answer) }
{
    let first = Bound::new(db, &parts[0]);
    check_row(&first, row)
}

/// The queries that are written, each resolved by itself.
fn queries_of(
    alloc: Global,
    db: &Database,
    selects: &[Select],
) -> Result<Items<Query>, Fail<Refusal>>
    ensures { Checked result (first_fault (λ before select. query_fault db.now select) [] selects.now) (AllZip (IsQueryOf db.now) selects.now) }
{
    let mut resolved = Vec::with_capacity(alloc, selects.len())?;
    for select in selects {
        resolved.push(resolve(alloc, db, select)?)?;
    }
    Ok(Items::from_vec(resolved))
}

/// Whether each part from the second on has answers like the first.
fn check_answers(db: &Database, parts: &[Query]) -> Result<(), Fail<Refusal>>
    requires some { 0 < length parts.now }
    requires few { length parts.now ≤ MOST_SELECTS }
    requires fits { All (λ (part : Query). FitsDatabase part db.now) parts.now }
    ensures { Checked result (answers_fault (map (answer_kinds db.now) parts.now)) (λ _. ⊤) }
{
    check_others(&Bound::new(db, &parts[0]), &parts[1..])
}

/// Whether the other parts have answers like the first.
fn check_others(first: &Bound<'_>, others: &[Query]) -> Result<(), Fail<Refusal>>
    requires few { length others.now < MOST_SELECTS }
    requires fits { All (λ (part : Query). FitsDatabase part first.now.db.now) others.now }
    ensures { Checked result (answers_fault (answer_kinds first.now.db.now first.now.query.now ∷ map (answer_kinds first.now.db.now) others.now)) (λ _. ⊤) }
{
    for (at, other) in others.iter().enumerate() {
        check_part(first, &Bound::new(first.db, other), at as u32 + 2)?;
    }
    Ok(())
}

/// Whether the part of a number has answers like the first.
fn check_part(first: &Bound<'_>, part: &Bound<'_>, number: u32) -> Result<(), Fail<Refusal>>
    ensures { Checked result (part_fault (answer_kinds first.now.db.now first.now.query.now) number (answer_kinds part.now.db.now part.now.query.now)) (λ _. ⊤) }
{
    if part.query.answer.len() != first.query.answer.len() {
        return Err(Fail::Refused(Refusal::WrongArity { row: number }));
    }
    check_columns(first, part, number)
}

/// Whether the answer columns of the part of a number have the kinds of the first part's.
fn check_columns(first: &Bound<'_>, part: &Bound<'_>, number: u32) -> Result<(), Fail<Refusal>>
    requires { length part.now.query.now.answer ≡ length first.now.query.now.answer }
    ensures { Checked result (first_fault (fault_by_number (kinds_clash number)) [] (zip (answer_kinds first.now.db.now first.now.query.now) (answer_kinds part.now.db.now part.now.query.now))) (λ _. ⊤) }
{
    for at in 0..first.query.answer.len() {
        let column = at as u32 + 1;
        let place = Place::Cell {
            row: number,
            column,
        };
        if let Some(fault) = kind_mismatch(place, answer_kind(first, at), answer_kind(part, at)) {
            return Err(Fail::Refused(fault));
        }
    }
    Ok(())
}
