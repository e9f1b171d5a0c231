//! The rows of a side of a query, by an elimination order, or over pairs of rows, or by search: what `ask` and `disputed` answer.
//! A search that used up its budget keeps its log.

ghost use Rattle.std.specs.Prelude.{IfOk};
ghost use Rattle.cqa_model.specs.Certain.{IsCertainAnswer};
ghost use Rattle.cqa_model.specs.Plan.{IsEliminationOf, IsExact};
ghost use Rattle.cqa_model.specs.Query.{FitsDatabase};
ghost use Rattle.row_answers.specs.Sides.{IsAnswerOf, IsDisputedAnswer};
ghost use Rattle.query_resolve.specs.Checks.{query_fault};
ghost use Rattle.session_state.specs.Replying.{Replies, IsReplyOutcome};
ghost use Rattle.query_statements.specs.Sides.{AnswersSide, FindsRows, TellsSide};

use crate::stopped::refuse_stop;
use cqa_model::{Plan, Query};
use cqa_value::{Fail, Items, NoMemory, Row};
use fo_plan::certain_by_plan;
use join_witness::candidates;
use pair_formula::{PairQuery, rows_by_pairs};
use part_search::Searched;
use query_resolve::resolve;
use query_strategy::Strategy;
use refusals::Refusal;
use reply_text::Reply;
use row_answers::{Side, without};
use session_state::SessionState;
use spj_syntax::Select;
use std::alloc::Global;
use table_blocks::Bound;
use union_ask::{rows_by_search, strategy_over};

/// The possible rows of a query without the certain ones, which these are.
fn disputed_beside(
    alloc: Global,
    bound: &Bound<'_>,
    certain: &[Row],
) -> Result<Items<Row>, NoMemory>
    requires { IsCertainAnswer bound.now.db.now bound.now.query.now certain.now }
    ensures { IfOk result (IsDisputedAnswer bound.now.db.now bound.now.query.now) }
{
    let rows = candidates(alloc, bound)?.into_vec();
    let left = without(alloc, rows, certain)?;
    Ok(Items::from_vec(left))
}

/// The rows of a side of a query by an elimination order, which is exact.
fn rows_by_plan(
    alloc: Global,
    bound: &Bound<'_>,
    side: Side,
    plan: &Plan,
) -> Result<Items<Row>, NoMemory>
    requires order { IsEliminationOf bound.now.query.now plan.now.order }
    requires exact { IsExact bound.now.query.now plan.now.order }
    ensures { IfOk result (IsAnswerOf bound.now.db.now bound.now.query.now side) }
{
    let rows = certain_by_plan(alloc, bound, plan)?;
    match side {
        Side::Certain => Ok(rows),
        Side::Disputed => {
            let disputed = disputed_beside(alloc, bound, rows.as_slice());
            drop(rows);
            disputed
        }
    }
}

/// The rows of a side of a query by its method, or where a search stopped.
fn find_rows(
    alloc: Global,
    bound: &Bound<'_>,
    side: Side,
    budget: u32,
) -> Result<Searched, NoMemory>
    ensures { IfOk result (FindsRows bound.now.query.now bound.now.db.now side budget) }
{
    match strategy_over(alloc, bound)? {
        Strategy::Plan(plan) => {
            let rows = rows_by_plan(alloc, bound, side, &plan);
            drop(plan);
            Ok(Searched::All(rows?))
        }
        Strategy::Pair => {
            let pair = PairQuery::new(bound);
            let rows = rows_by_pairs(alloc, &pair, side)?;
            Ok(Searched::All(rows))
        }
        Strategy::Search => rows_by_search(alloc, bound, side, budget),
    }
}

/// What the method of a query came to, as a reply.
fn reply_to(
    session: &mut SessionState,
    _query: &Query,
    _side: Side,
    found: Searched,
) -> Result<Reply, Fail<Refusal>>
    requires { FindsRows _query.now session.old.tables _side session.old.budget found }
    ensures { IsReplyOutcome result session.old (TellsSide session.old _query.now _side) session.new }
{
    match found {
        Searched::All(rows) => Ok(Reply::Rows(rows)),
        Searched::Stopped(stop) => Err(Fail::Refused(refuse_stop(session, stop))),
    }
}

/// Answers the rows of a side of a query that fits the tables, by its method.
fn tell_rows(
    alloc: Global,
    session: &mut SessionState,
    query: &Query,
    side: Side,
) -> Result<Reply, Fail<Refusal>>
    requires { FitsDatabase query.now session.old.tables }
    ensures { IsReplyOutcome result session.old (TellsSide session.old query.now side) session.new }
{
    let bound = Bound::new(session.database(), query);
    let found = find_rows(alloc, &bound, side, session.budget())?;
    reply_to(session, query, side, found)
}

/// Answers the rows of a side of a query.
///
/// # Errors
///
/// The first check of the query that fails. Where it needs search, also `WitnessLimit` at the first candidate
/// with too many witnesses, and `Spent` at a candidate before it for which the budget doesn't suffice.
pub fn tell_side(
    alloc: Global,
    session: &mut SessionState,
    select: &Select,
    side: Side,
) -> Result<Reply, Fail<Refusal>>
    ensures { IsReplyOutcome result session.old (Replies (query_fault session.old.tables select.now) session.old (AnswersSide session.old select.now side)) session.new }
{
    let query = resolve(alloc, session.database(), select)?;
    let reply = tell_rows(alloc, session, &query, side);
    drop(query);
    reply
}
