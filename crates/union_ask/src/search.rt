//! The certain rows of a union, or the disputed ones: each candidate is decided by what is known of the parts alone, or by its
//! formula, ascending. The first one that can't be decided ends the search. A query alone is a union of one part.

ghost use Rattle.std.specs.Prelude.{◌≡◌, ◌↔◌, [], IfOk, IfSome, IsNone, IsTrue, List, OnOk, length};
ghost use Rattle.cqa_model.specs.Database.{Table};
ghost use Rattle.cqa_model.specs.Unions.{IsCertainIn};
ghost use Rattle.cqa_model.specs.declared.query.Query.{Query};
ghost use Rattle.part_search.specs.Judging.{IsScopeOf};
ghost use Rattle.part_search.specs.Lookups.{AreBoundsOf, AreLookupsOf, HasLengthOf};
ghost use Rattle.part_search.specs.Parts.{IsFrameFor};
ghost use Rattle.row_answers.specs.Sifting.{Sifts};
ghost use Rattle.union_ask.specs.Candidates.{AreCandidatesIn};
ghost use Rattle.union_ask.specs.Knowing.{IsSearchOf};
ghost use Rattle.union_ask.specs.Searching.{IsOfIn, IsSearchedIn, IsSearchedOver, IsStopOver, IsStopAtOver, SiftsIn, SiftsAllIn};

use crate::candidates::union_candidates;
use crate::frame::union_frame;
use crate::judging::{UnionSearch, judge_candidate};
use cqa_value::{Items, NoMemory, Row};
use join_witness::Lookup;
use list_search::Scope;
use part_search::{BoundParts, Searched, Stop, Verdict, bounds_of, lookups_of, scope_over};
use row_answers::Side;
use row_lists::Frame;
use std::alloc::Global;
use table_blocks::Bound;

/// Puts a candidate, of which it is known whether it is certain, behind others if it is of the side.
fn put_of(side: Side, is_certain: bool, row: Row, answers: &mut Vec<Row>) -> Result<(), NoMemory>
    ensures { (db : List Table) (parts : List Query) → (IsTrue is_certain ↔ IsCertainIn db parts row) → OnOk result (Sifts (IsOfIn db parts side) row answers.old.items answers.new.items) }
{
    let is_of = match side {
        Side::Certain => is_certain,
        Side::Disputed => !is_certain,
    };
    if is_of {
        answers.push(row)?;
    } else {
        drop(row);
    }
    Ok(())
}

/// Puts a row behind those of the side if it is one of them. Says why the search ends, if it does.
fn sift<'a, 'b: 'a>(
    alloc: Global,
    parts: &BoundParts<'b>,
    scope: &'a Scope,
    lookups: &mut [Lookup<'_>],
    search: &mut UnionSearch<'_>,
    side: Side,
    row: Row,
    answers: &mut Vec<Row>,
) -> Result<Option<Stop>, NoMemory>
    requires scope { IsScopeOf parts.now.db.now parts.now.queries.now scope.now }
    requires lookups { AreLookupsOf parts.now.db.now parts.now.queries.now lookups.old }
    requires search { IsSearchOf parts.now.db.now parts.now.queries.now search.old }
    requires long { HasLengthOf parts.now.queries.now row }
    ensures lookups { AreLookupsOf parts.now.db.now parts.now.queries.now lookups.new }
    ensures search { IsSearchOf parts.now.db.now parts.now.queries.now search.new }
    ensures budget { search.new.budget ≡ search.old.budget }
    ensures sifted { IfOk result (λ stop. IsNone stop → SiftsIn parts.now.db.now parts.now.queries.now side row answers.old.items answers.new.items) }
    ensures stopped { IfOk result (λ stop. IfSome stop (IsStopAtOver parts.now.db.now scope.now.frame.tables parts.now.queries.now search.old.budget row)) }
{
    match judge_candidate(alloc, parts, scope, lookups, search, &row) {
        Err(fault) => {
            drop(row);
            Err(fault)
        }
        Ok(Verdict::Certain) => {
            put_of(side, true, row, answers)?;
            Ok(None)
        }
        Ok(Verdict::Rejected) => {
            put_of(side, false, row, answers)?;
            Ok(None)
        }
        Ok(Verdict::Over) => Ok(Some(Stop::Over(row))),
        Ok(Verdict::Spent { cnf, log }) => Ok(Some(Stop::Spent { row, cnf, log })),
    }
}

/// Gathers those of the candidates that are of the side, ascending. Says why the search ends before all are decided, if it does.
fn sift_all<'a, 'b: 'a>(
    alloc: Global,
    parts: &BoundParts<'b>,
    scope: &'a Scope,
    lookups: &mut [Lookup<'_>],
    search: &mut UnionSearch<'_>,
    side: Side,
    rows: Vec<Row>,
    answers: &mut Vec<Row>,
) -> Result<Option<Stop>, NoMemory>
    requires scope { IsScopeOf parts.now.db.now parts.now.queries.now scope.now }
    requires lookups { AreLookupsOf parts.now.db.now parts.now.queries.now lookups.old }
    requires search { IsSearchOf parts.now.db.now parts.now.queries.now search.old }
    requires rows { AreCandidatesIn parts.now.db.now parts.now.queries.now rows.items }
    requires none { answers.old.items ≡ [] }
    ensures all { IfOk result (λ stop. IsNone stop → SiftsAllIn parts.now.db.now parts.now.queries.now side rows.items answers.new.items) }
    ensures stopped { IfOk result (λ stop. IfSome stop (IsStopOver parts.now.db.now scope.now.frame.tables parts.now.queries.now search.old.budget)) }
{
    for row in rows {
        let stop = sift(alloc, parts, scope, lookups, search, side, row, answers)?;
        if stop.is_some() {
            return Ok(stop);
        }
    }
    Ok(None)
}

/// Those of the candidates that are of the side.
fn rows_of<'a, 'b: 'a>(
    alloc: Global,
    parts: &BoundParts<'b>,
    scope: &'a Scope,
    lookups: &mut [Lookup<'_>],
    search: &mut UnionSearch<'_>,
    side: Side,
) -> Result<Searched, NoMemory>
    requires scope { IsScopeOf parts.now.db.now parts.now.queries.now scope.now }
    requires lookups { AreLookupsOf parts.now.db.now parts.now.queries.now lookups.old }
    requires search { IsSearchOf parts.now.db.now parts.now.queries.now search.old }
    ensures { IfOk result (IsSearchedOver parts.now.db.now scope.now.frame.tables parts.now.queries.now side search.old.budget) }
{
    let rows = union_candidates(alloc, parts)?.into_vec();
    let mut answers = Vec::new(alloc);
    match sift_all(
        alloc,
        parts,
        scope,
        lookups,
        search,
        side,
        rows,
        &mut answers,
    ) {
        Ok(None) => Ok(Searched::All(Items::from_vec(answers))),
        Ok(Some(stop)) => {
            drop(answers);
            Ok(Searched::Stopped(stop))
        }
        Err(fault) => {
            drop(answers);
            Err(fault)
        }
    }
}

/// The same over a frame, where each part is over the database.
fn rows_by(
    alloc: Global,
    parts: &BoundParts<'_>,
    bounds: &[Bound<'_>],
    frame: Frame,
    side: Side,
    budget: u32,
) -> Result<Searched, NoMemory>
    requires bounds { AreBoundsOf parts.now.db.now parts.now.queries.now bounds.now }
    requires wide { length frame.slots ≡ length parts.now.db.now }
    requires frame { IsFrameFor parts.now.db.now parts.now.queries.now frame.tables }
    ensures { IfOk result (IsSearchedOver parts.now.db.now frame.tables parts.now.queries.now side budget) }
{
    let scope = scope_over(alloc, parts, frame)?;
    let mut lookups = lookups_of(alloc, parts, bounds)?;
    let mut search = UnionSearch::new(alloc, parts, bounds, budget);
    let found = rows_of(
        alloc,
        parts,
        &scope,
        lookups.as_mut_slice(),
        &mut search,
        side,
    );
    drop(search);
    drop(lookups);
    found
}

/// The rows of a side of a union, ascending: each candidate is decided by its formula over a frame, by searches of at most `budget`
/// conflicts each, or, where the budget isn't 0, by the certain rows of the parts alone that need no search; or where the search
/// stopped: at the first candidate with too many witnesses, or at one before it that neither tells.
///
/// # Errors
///
/// `NoMemory` where memory is refused.
pub(crate) fn rows_of_parts(
    alloc: Global,
    parts: &BoundParts<'_>,
    frame: Frame,
    side: Side,
    budget: u32,
) -> Result<Searched, NoMemory>
    requires wide { length frame.slots ≡ length parts.now.db.now }
    requires frame { IsFrameFor parts.now.db.now parts.now.queries.now frame.tables }
    ensures { IfOk result (IsSearchedOver parts.now.db.now frame.tables parts.now.queries.now side budget) }
{
    match bounds_of(alloc, parts) {
        Ok(bounds) => {
            let found = rows_by(alloc, parts, bounds.as_slice(), frame, side, budget);
            drop(bounds);
            found
        }
        Err(fault) => {
            drop(frame);
            Err(fault)
        }
    }
}

/// The rows that are certain for a union, with its tables in the order of their creation.
///
/// # Errors
///
/// `NoMemory` where memory is refused.
pub fn certain_of_union(
    alloc: Global,
    parts: &BoundParts<'_>,
    budget: u32,
) -> Result<Searched, NoMemory>
    ensures { IfOk result (IsSearchedIn parts.now.db.now parts.now.queries.now budget) }
{
    let frame = union_frame(alloc, parts)?;
    rows_of_parts(alloc, parts, frame, Side::Certain, budget)
}
