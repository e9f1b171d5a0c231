//! `against`: the rows that are kept against a row that isn't certain.

ghost use Rattle.std.specs.Prelude.{◌≡◌, IfErr, IfOk, length, map};
ghost use Rattle.cqa_model.specs.Query.{FitsDatabase};
ghost use Rattle.join_access.specs.Listing.{HasTooMany, IsOver};
ghost use Rattle.table_blocks.specs.Tables.{AreStored};
ghost use Rattle.repair_back.specs.Rejected.{AreRejectingRows};
ghost use Rattle.rows_against.specs.Against.{IsAgainst};
ghost use Rattle.query_resolve.specs.Checks.{query_fault, answer_fault};
ghost use Rattle.session_state.specs.Replying.{Replies, IsReplyOutcome};
ghost use Rattle.query_replies.specs.Kept.{kept_line};
ghost use Rattle.reason_statements.specs.Against.{AnswersAgainst, IsDecision, IsAgainstPair, IsToldOf, IsUndecidedBy, TellsAgainst, rejecting_of};

use cqa_model::{Query, RowId};
use cqa_value::{Fail, Items, NoMemory, Row};
use join_access::TooMany;
use join_witness::witnesses;
use pair_answers::decide;
use pair_formula::PairQuery;
use plan_reasons::reason_by_plan;
use query_replies::kept_rows;
use query_resolve::{check_row, resolve};
use query_strategy::{Strategy, strategy_of};
use refusals::Refusal;
use repair_back::{Reason, Repair, Untold, chosen};
use reply_text::Reply;
use rows_against::minimal_rows;
use session_state::{SessionState, refuse_row};
use spj_syntax::Select;
use std::alloc::Global;
use table_blocks::{Bound, Database};
use union_ask::reason_by_search;

/// The rows that a repair without a witness had to choose; `None` where a reason says that the row is certain.
fn rejecting(reason: Reason) -> Option<Items<RowId>>
    ensures { result ≡ rejecting_of reason }
{
    match reason {
        Reason::Rejected(names) => Some(names),
        certain => {
            drop(certain);
            None
        }
    }
}

/// The rows that a repair without a witness had to choose, for a row of a pair. No formula is made.
fn by_pair(alloc: Global, pair: &PairQuery<'_>, row: &Row) -> Result<Option<Items<RowId>>, NoMemory>
    requires { length row.now ≡ length pair.now.bound.now.query.now.answer }
    ensures { IfOk result (IsAgainstPair pair.now.bound.now.db.now pair.now.bound.now.query.now row.now) }
{
    match decide(alloc, pair, row)? {
        Some(kept) => {
            let repair = Repair { kept: kept.rows };
            let names = chosen(alloc, pair.bound.db, repair)?;
            Ok(Some(names))
        }
        None => Ok(None),
    }
}

/// The rows that a repair without a witness had to choose, by the query's method; `None` where the row is certain.
fn by_method(
    alloc: Global,
    bound: &Bound<'_>,
    row: &Row,
    budget: u32,
) -> Result<Option<Items<RowId>>, Fail<Untold>>
    requires { length row.now ≡ length bound.now.query.now.answer }
    ensures decided { IfOk result (IsDecision bound.now.db.now bound.now.query.now row.now) }
    ensures undecided { IfErr result (IsUndecidedBy bound.now.db.now bound.now.query.now row.now budget) }
{
    match strategy_of(alloc, bound.query, &bound.variables)? {
        Strategy::Plan(plan) => {
            let reason = reason_by_plan(alloc, bound, &plan, row);
            drop(plan);
            Ok(rejecting(reason?))
        }
        Strategy::Pair => {
            let pair = PairQuery::new(bound);
            let names = by_pair(alloc, &pair, row)?;
            Ok(names)
        }
        Strategy::Search => match reason_by_search(alloc, bound, row, budget) {
            Ok(reason) => Ok(rejecting(reason)),
            Err(fault) => Err(fault),
        },
    }
}

/// The rows that are kept against a row, of those that a repair without a witness had to choose.
fn fewest_of(
    alloc: Global,
    bound: &Bound<'_>,
    row: &Row,
    rejecting: &[RowId],
) -> Result<Items<RowId>, Fail<TooMany>>
    requires long { length row.now ≡ length bound.now.query.now.answer }
    requires rejecting { AreRejectingRows bound.now.db.now bound.now.query.now row.now rejecting.now }
    requires stored { AreStored bound.now.db.now rejecting.now }
    ensures against { IfOk result (IsAgainst bound.now.db.now bound.now.query.now row.now) }
    ensures within { IfOk result (λ names. HasTooMany bound.now.query.now bound.now.db.now row.now → ⊥) }
    ensures over { IfErr result (IsOver (HasTooMany bound.now.query.now bound.now.db.now row.now)) }
{
    let found = witnesses(alloc, bound, row)?;
    let names = minimal_rows(alloc, &found, rejecting);
    drop(found);
    Ok(names?)
}

/// The rows that are kept against a row; `None` where it is certain.
fn against_of(
    alloc: Global,
    bound: &Bound<'_>,
    row: &Row,
    budget: u32,
) -> Result<Option<Items<RowId>>, Fail<Untold>>
    requires { length row.now ≡ length bound.now.query.now.answer }
    ensures told { IfOk result (IsToldOf bound.now.db.now bound.now.query.now row.now) }
    ensures undecided { IfErr result (IsUndecidedBy bound.now.db.now bound.now.query.now row.now budget) }
{
    let Some(rejecting) = by_method(alloc, bound, row, budget)? else {
        return Ok(None);
    };
    let names = fewest_of(alloc, bound, row, rejecting.as_slice());
    drop(rejecting);
    match names {
        Ok(names) => Ok(Some(names)),
        Err(Fail::Refused(TooMany)) => Err(Fail::Refused(Untold::Over)),
        Err(Fail::NoMemory) => Err(Fail::NoMemory),
    }
}

/// The reply that tells rows by their names.
fn kept_against(alloc: Global, db: &Database, names: Items<RowId>) -> Result<Reply, NoMemory>
    requires { AreStored db.now names }
    ensures { IfOk result (λ reply. reply ≡ Reply.Against (map (kept_line db.now) names)) }
{
    let lines = kept_rows(alloc, db, names.as_slice());
    drop(names);
    Ok(Reply::Against(lines?))
}

/// The reply that tells the rows that are kept against a row, or that it is certain.
fn reply_to(
    alloc: Global,
    session: &mut SessionState,
    _query: &Query,
    _row: &Row,
    against: Option<Items<RowId>>,
) -> Result<Reply, Fail<Refusal>>
    requires { IsToldOf session.old.tables _query.now _row.now against }
    ensures { IsReplyOutcome result session.old (TellsAgainst session.old _query.now _row.now) session.new }
{
    match against {
        None => Ok(Reply::Certain),
        Some(names) => Ok(kept_against(alloc, session.database(), names)?),
    }
}

/// Tells the rows that are kept against a row, or that it is certain, or what keeps that from being told.
fn tell(
    alloc: Global,
    session: &mut SessionState,
    query: &Query,
    row: &Row,
    found: Result<Option<Items<RowId>>, Fail<Untold>>,
) -> Result<Reply, Fail<Refusal>>
    requires told { IfOk found (IsToldOf session.old.tables query.now row.now) }
    requires undecided { IfErr found (IsUndecidedBy session.old.tables query.now row.now session.old.budget) }
    ensures { IsReplyOutcome result session.old (TellsAgainst session.old query.now row.now) session.new }
{
    match found {
        Ok(against) => reply_to(alloc, session, query, row, against),
        Err(Fail::Refused(stop)) => Err(refuse_row(alloc, session, row, stop)),
        Err(Fail::NoMemory) => Err(Fail::NoMemory),
    }
}

/// Checks a row against a query that fits the tables, and tells the rows that are kept against it.
fn check_and_tell(
    alloc: Global,
    session: &mut SessionState,
    query: &Query,
    row: &Row,
) -> Result<Reply, Fail<Refusal>>
    requires { FitsDatabase query.now session.old.tables }
    ensures { IsReplyOutcome result session.old (Replies (answer_fault session.old.tables query.now row.now) session.old (TellsAgainst session.old query.now row.now)) session.new }
{
    let bound = Bound::new(session.database(), query);
    if let Err(refusal) = check_row(&bound, row) {
        return Err(Fail::Refused(refusal));
    }
    let found = against_of(alloc, &bound, row, session.budget());
    tell(alloc, session, query, row, found)
}

/// Answers which rows are kept against a row that isn't certain for a query: a few stored rows such that no repair that keeps
/// them holds a witness of it, and none of them can be left out. A row that isn't possible has none. Of a certain row it
/// answers that.
///
/// # Errors
///
/// The first check of the query that fails, and then that of the row. `WitnessLimit` exactly where the row isn't certain and
/// has too many witnesses; where the query needs search, exactly where it has too many. Then also `Spent` where the budget
/// doesn't suffice; the row's formula and the spent log are kept.
pub fn against(
    alloc: Global,
    session: &mut SessionState,
    row: &Row,
    select: &Select,
) -> Result<Reply, Fail<Refusal>>
    ensures { IsReplyOutcome result session.old (Replies (query_fault session.old.tables select.now) session.old (AnswersAgainst session.old row.now select.now)) session.new }
{
    let query = resolve(alloc, session.database(), select)?;
    let reply = check_and_tell(alloc, session, &query, row);
    drop(query);
    reply
}
