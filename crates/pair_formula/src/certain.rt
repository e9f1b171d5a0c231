//! The certain rows of a pair, or the disputed ones, all of them in a time linear in their witnesses, but for sorting these.
//! A row with more witnesses than a formula takes is decided over the tables' rows, of which there are fewer; and so is the
//! row of a query without answer columns, which is certain or isn't whether it is a candidate or not.

ghost use Rattle.std.specs.Prelude.{◌≡◌, ◌↔◌, [], IfOk, IsTrue, OnOk, length};
ghost use Rattle.cqa_model.specs.Certain.{IsCertain, IsCertainAnswer};
ghost use Rattle.cqa_model.specs.Graph.{IsPair};
ghost use Rattle.row_answers.specs.Sides.{IsAnswerOf, IsDisputedAnswer, IsOf};
ghost use Rattle.row_answers.specs.Sifting.{Sifts, AreSifted};
ghost use Rattle.repair_clauses.specs.Candidates.{AreCandidates};

use crate::formula::full_formula;
use cqa_value::{Fail, Items, NoMemory, Row};
use join_access::TooMany;
use join_witness::{Lookup, candidates, lookup_of, witnesses_by};
use pair_answers::{PairQuery, is_certain};
use pair_refutation::is_unsatisfiable;
use repair_clauses::are_avoidable;
use row_answers::Side;
use row_witnesses::RowWitnesses;
use std::alloc::Global;

/// Whether a row is certain, by its formula over full blocks where free rows alone don't tell.
fn by_formula(alloc: Global, witnesses: &RowWitnesses<'_>) -> Result<bool, NoMemory>
    requires { IsPair witnesses.now.bound.now.query.now }
    ensures { IfOk result (λ certain. IsTrue certain ↔ IsCertain witnesses.now.bound.now.db.now witnesses.now.bound.now.query.now witnesses.now.row.now) }
{
    if are_avoidable(alloc, witnesses)? {
        return Ok(false);
    }
    let cnf = full_formula(alloc, witnesses)?;
    let certain = is_unsatisfiable(alloc, &cnf);
    drop(cnf);
    Ok(certain?)
}

/// Whether a row is certain, by its formula, or by the tables where it has too many witnesses.
fn by_lookup(alloc: Global, lookup: &mut Lookup<'_>, row: &Row) -> Result<bool, NoMemory>
    requires pair { IsPair lookup.old.bound.now.query.now }
    requires long { length row.now ≡ length lookup.old.bound.now.query.now.answer }
    ensures bound { lookup.new.bound.now ≡ lookup.old.bound.now }
    ensures certain { IfOk result (λ certain. IsTrue certain ↔ IsCertain lookup.old.bound.now.db.now lookup.old.bound.now.query.now row.now) }
{
    match witnesses_by(alloc, lookup, row) {
        Ok(found) => {
            let certain = by_formula(alloc, &found);
            drop(found);
            certain
        }
        Err(Fail::Refused(TooMany)) => is_certain(alloc, &PairQuery::new(lookup.bound), row),
        Err(Fail::NoMemory) => Err(NoMemory),
    }
}

/// Puts a row behind those of the side if it is one of them.
fn sift(
    alloc: Global,
    lookup: &mut Lookup<'_>,
    side: Side,
    row: Row,
    answers: &mut Vec<Row>,
) -> Result<(), NoMemory>
    requires pair { IsPair lookup.old.bound.now.query.now }
    requires long { length row ≡ length lookup.old.bound.now.query.now.answer }
    ensures bound { lookup.new.bound.now ≡ lookup.old.bound.now }
    ensures sifted { OnOk result (Sifts (IsOf lookup.old.bound.now.db.now lookup.old.bound.now.query.now side) row answers.old.items answers.new.items) }
{
    match by_lookup(alloc, lookup, &row) {
        Ok(is_certain) => side.sift(row, is_certain, answers),
        Err(fault) => {
            drop(row);
            Err(fault)
        }
    }
}

/// Gathers those of the possible rows that are of the side.
fn sift_all(
    alloc: Global,
    lookup: &mut Lookup<'_>,
    side: Side,
    rows: Vec<Row>,
    answers: &mut Vec<Row>,
) -> Result<(), NoMemory>
    requires pair { IsPair lookup.old.bound.now.query.now }
    requires rows { AreCandidates lookup.old.bound.now.query.now lookup.old.bound.now.db.now rows.items }
    requires none { answers.old.items ≡ [] }
    ensures { OnOk result (AreSifted (IsOf lookup.old.bound.now.db.now lookup.old.bound.now.query.now side) rows.items answers.new.items) }
{
    for row in rows {
        sift(alloc, lookup, side, row, answers)?;
    }
    Ok(())
}

/// The same by one lookup for all rows.
fn sift_rows(
    alloc: Global,
    pair: &PairQuery<'_>,
    side: Side,
    rows: Vec<Row>,
    answers: &mut Vec<Row>,
) -> Result<(), NoMemory>
    requires rows { AreCandidates pair.now.bound.now.query.now pair.now.bound.now.db.now rows.items }
    requires none { answers.old.items ≡ [] }
    ensures { OnOk result (AreSifted (IsOf pair.now.bound.now.db.now pair.now.bound.now.query.now side) rows.items answers.new.items) }
{
    match lookup_of(alloc, pair.bound) {
        Ok(made) => {
            let mut lookup = made;
            let sifted = sift_all(alloc, &mut lookup, side, rows, answers);
            drop(lookup);
            sifted
        }
        Err(fault) => {
            drop(rows);
            Err(fault)
        }
    }
}

/// The certain rows of a pair without answer columns: the row without values, or none.
fn certain_of_no_columns(alloc: Global, pair: &PairQuery<'_>) -> Result<Items<Row>, NoMemory>
    requires { pair.now.bound.now.query.now.answer ≡ [] }
    ensures { IfOk result (IsCertainAnswer pair.now.bound.now.db.now pair.now.bound.now.query.now) }
{
    let row = Row::new(alloc);
    let mut answers = Items::new(alloc);
    if is_certain(alloc, pair, &row)? {
        answers.push(row)?;
    }
    Ok(answers)
}

/// The disputed rows of a pair without answer columns: its candidates, unless the row without values is certain.
fn disputed_of_no_columns(alloc: Global, pair: &PairQuery<'_>) -> Result<Items<Row>, NoMemory>
    requires { pair.now.bound.now.query.now.answer ≡ [] }
    ensures { IfOk result (IsDisputedAnswer pair.now.bound.now.db.now pair.now.bound.now.query.now) }
{
    let row = Row::new(alloc);
    if is_certain(alloc, pair, &row)? {
        Ok(Items::new(alloc))
    } else {
        candidates(alloc, pair.bound)
    }
}

/// The rows of a side of a pair without answer columns.
fn of_no_columns(alloc: Global, pair: &PairQuery<'_>, side: Side) -> Result<Items<Row>, NoMemory>
    requires { pair.now.bound.now.query.now.answer ≡ [] }
    ensures { IfOk result (IsAnswerOf pair.now.bound.now.db.now pair.now.bound.now.query.now side) }
{
    match side {
        Side::Certain => certain_of_no_columns(alloc, pair),
        Side::Disputed => disputed_of_no_columns(alloc, pair),
    }
}

/// Those of the candidates that are of the side.
fn of_candidates(alloc: Global, pair: &PairQuery<'_>, side: Side) -> Result<Items<Row>, NoMemory>
    ensures { IfOk result (IsAnswerOf pair.now.bound.now.db.now pair.now.bound.now.query.now side) }
{
    let rows = candidates(alloc, pair.bound)?.into_vec();
    let mut answers = Vec::new(alloc);
    match sift_rows(alloc, pair, side, rows, &mut answers) {
        Ok(()) => Ok(Items::from_vec(answers)),
        Err(fault) => {
            drop(answers);
            Err(fault)
        }
    }
}

/// The rows of a side of a pair, ascending and each once.
///
/// # Errors
///
/// `NoMemory` where memory is refused.
pub fn rows_by_pairs(
    alloc: Global,
    pair: &PairQuery<'_>,
    side: Side,
) -> Result<Items<Row>, NoMemory>
    ensures { IfOk result (IsAnswerOf pair.now.bound.now.db.now pair.now.bound.now.query.now side) }
{
    if pair.bound.query.answer.is_empty() {
        of_no_columns(alloc, pair, side)
    } else {
        of_candidates(alloc, pair, side)
    }
}
