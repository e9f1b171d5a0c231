//! What is found out of one candidate of a union: whether it is certain, and if that takes too long, why.

ghost use Rattle.std.specs.Prelude.{◌≤◌, IfOk, length};
ghost use Rattle.join_access.specs.Listing.{names_of};
ghost use Rattle.join_access.specs.declared.witness.TheConstants.{MOST_WITNESSES};
ghost use Rattle.part_search.specs.Judging.{IsScopeOf, IsVerdictOver, Tells};
ghost use Rattle.part_search.specs.Parts.{AreNamesIn};

use crate::bound_parts::BoundParts;
use crate::encoding::lists_over;
use cnf_form::{Cnf, Log};
use cqa_value::{NoMemory, Row};
use join_witness::Witness;
use list_search::{Judged, Room, Scope, judge};
use std::alloc::Global;

/// What is found out of one row.
#[derive(Debug, Drop)]
pub enum Verdict {
    Certain,
    Rejected,
    Over,
    Spent { cnf: Cnf, log: Log },
}

/// What is found out of a row whose lists are judged.
fn verdict_of(judged: Judged) -> Verdict
    ensures { Tells judged result }
{
    match judged {
        Judged::Forced => Verdict::Certain,
        Judged::Avoided => Verdict::Rejected,
        Judged::Spent { cnf, log } => Verdict::Spent { cnf, log },
    }
}

/// What is found out of the row whose witnesses these are, by searches of at most `budget` conflicts each.
///
/// # Errors
///
/// `NoMemory` where memory is refused.
pub fn judge_lists<'c, 'a: 'c, 'b: 'a>(
    alloc: Global,
    parts: &BoundParts<'b>,
    scope: &'a Scope,
    budget: u32,
    room: &mut Room,
    lists: &'c [Witness],
    row: &Row,
) -> Result<Verdict, NoMemory>
    requires scope { IsScopeOf parts.now.db.now parts.now.queries.now scope.now }
    requires names { AreNamesIn parts.now.queries.now parts.now.db.now row.now (names_of lists.now) }
    requires few { length lists.now ≤ MOST_WITNESSES }
    ensures { IfOk result (IsVerdictOver parts.now.db.now scope.now.frame.tables parts.now.queries.now row.now budget) }
{
    let lists = lists_over(alloc, parts, &scope.frame, lists, row)?;
    let judged = judge(alloc, scope, &lists, budget, room);
    drop(lists);
    Ok(verdict_of(judged?))
}
