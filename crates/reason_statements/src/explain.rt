//! `explain`: why a row is certain for a query, or why it isn't.

ghost use Rattle.std.specs.Prelude.{◌≡◌, ◌<◌, ℕ, IfErr, IfOk, OnErr, Some, length, map};
ghost use Rattle.cqa_model.specs.Query.{FitsDatabase};
ghost use Rattle.table_blocks.specs.Tables.{AreStored};
ghost use Rattle.cqa_model.specs.Graph.{IsPair};
ghost use Rattle.query_strategy.specs.Strategies.{HasNoPlan};
ghost use Rattle.query_resolve.specs.Checks.{query_fault, answer_fault};
ghost use Rattle.reason_statements.specs.Reasons.{IsReason, IsStopped};
ghost use Rattle.session_state.specs.Replying.{Replies, IsReplyOutcome};
ghost use Rattle.query_replies.specs.Names.{table_name_at};
ghost use Rattle.query_replies.specs.Kept.{kept_line};
ghost use Rattle.reason_statements.specs.Explain.{MayTell, Explains};

use cqa_model::{Query, RowId};
use cqa_value::{Fail, Items, NoMemory, Row};
use join_access::TooMany;
use pair_formula::{PairQuery, reason_by_pair};
use plan_reasons::reason_by_plan;
use query_replies::{kept_rows, name_of};
use query_resolve::{check_row, resolve};
use query_strategy::{Strategy, strategy_of};
use refusals::Refusal;
use repair_back::{Reason, Untold};
use reply_text::{Proof, Reply};
use session_state::{SessionState, refuse_row};
use spj_syntax::Select;
use std::alloc::Global;
use table_blocks::{Bound, Database};
use union_ask::reason_by_search;

/// The reason of a row of a pair.
fn of_pair(alloc: Global, pair: &PairQuery<'_>, row: &Row) -> Result<Reason, Fail<Untold>>
    requires long { length row.now ≡ length pair.now.bound.now.query.now.answer }
    requires cycle { HasNoPlan pair.now.bound.now.query.now }
    requires weak { IsPair pair.now.bound.now.query.now }
    ensures told { IfOk result (IsReason pair.now.bound.now.db.now pair.now.bound.now.query.now row.now) }
    ensures stopped { (budget : ℕ) → IfErr result (IsStopped pair.now.bound.now.db.now pair.now.bound.now.query.now row.now budget) }
{
    match reason_by_pair(alloc, pair, row) {
        Ok(reason) => Ok(reason),
        Err(Fail::Refused(TooMany)) => Err(Fail::Refused(Untold::Over)),
        Err(Fail::NoMemory) => Err(Fail::NoMemory),
    }
}

/// The reason of a row, by the query's method.
fn reason_of(
    alloc: Global,
    bound: &Bound<'_>,
    row: &Row,
    budget: u32,
) -> Result<Reason, Fail<Untold>>
    requires { length row.now ≡ length bound.now.query.now.answer }
    ensures told { IfOk result (IsReason bound.now.db.now bound.now.query.now row.now) }
    ensures stopped { IfErr result (IsStopped bound.now.db.now bound.now.query.now row.now budget) }
{
    match strategy_of(alloc, bound.query, &bound.variables)? {
        Strategy::Plan(plan) => {
            let reason = reason_by_plan(alloc, bound, &plan, row);
            drop(plan);
            Ok(reason?)
        }
        Strategy::Pair => {
            let pair = PairQuery::new(bound);
            of_pair(alloc, &pair, row)
        }
        Strategy::Search => reason_by_search(alloc, bound, row, budget),
    }
}

/// The reply that tells the block by which a row is certain.
fn by_block(alloc: Global, db: &Database, table: u32, key: Row) -> Result<Reply, NoMemory>
    requires { table < length db.now }
    ensures { IfOk result (λ reply. reply ≡ Reply.ByBlock (table_name_at db.now table) key) }
{
    match name_of(alloc, db, table) {
        Ok(table) => Ok(Reply::ByBlock { table, key }),
        Err(fault) => {
            drop(key);
            Err(fault)
        }
    }
}

/// The reply that tells a repair by the names of its rows.
pub(crate) fn rejected(alloc: Global, db: &Database, names: Items<RowId>) -> Result<Reply, NoMemory>
    requires { AreStored db.now names }
    ensures { IfOk result (λ reply. reply ≡ Reply.Rejected (map (kept_line db.now) names)) }
{
    let lines = kept_rows(alloc, db, names.as_slice());
    drop(names);
    Ok(Reply::Rejected(lines?))
}

/// The reply that tells a refutation of a row's formula, which is kept as the last log.
pub(crate) fn refuted(
    alloc: Global,
    session: &mut SessionState,
    proof: Proof,
) -> Result<Reply, NoMemory>
    ensures told { IfOk result (λ reply. reply ≡ Reply.ByRefutation proof) }
    ensures kept { IfOk result (λ reply. session.new ≡ record session.old { last_log = Some proof }) }
    ensures err { OnErr result (session.new ≡ session.old) }
{
    match proof.copy(alloc) {
        Ok(kept) => {
            session.keep_log(kept);
            Ok(Reply::ByRefutation(proof))
        }
        Err(fault) => {
            drop(proof);
            Err(fault)
        }
    }
}

/// The reply that tells a reason.
fn reply_to(
    alloc: Global,
    session: &mut SessionState,
    _query: &Query,
    _row: &Row,
    reason: Reason,
) -> Result<Reply, Fail<Refusal>>
    requires { IsReason session.old.tables _query.now _row.now reason }
    ensures { IsReplyOutcome result session.old (MayTell session.old _query.now _row.now) session.new }
{
    match reason {
        Reason::ByBlock { table, key } => Ok(by_block(alloc, session.database(), table, key)?),
        Reason::Rejected(names) => Ok(rejected(alloc, session.database(), names)?),
        Reason::Refuted { cnf, log } => Ok(refuted(alloc, session, Proof { cnf, log })?),
    }
}

/// Tells why a row is certain, or why it isn't, or what keeps that from being told.
fn tell(
    alloc: Global,
    session: &mut SessionState,
    query: &Query,
    row: &Row,
    found: Result<Reason, Fail<Untold>>,
) -> Result<Reply, Fail<Refusal>>
    requires told { IfOk found (IsReason session.old.tables query.now row.now) }
    requires stopped { IfErr found (IsStopped session.old.tables query.now row.now session.old.budget) }
    ensures { IsReplyOutcome result session.old (MayTell session.old query.now row.now) session.new }
{
    match found {
        Ok(reason) => reply_to(alloc, session, query, row, reason),
        Err(Fail::Refused(stop)) => Err(refuse_row(alloc, session, row, stop)),
        Err(Fail::NoMemory) => Err(Fail::NoMemory),
    }
}

/// Checks a row against a query that fits the tables, and tells why it is certain, or why it isn't.
fn check_and_tell(
    alloc: Global,
    session: &mut SessionState,
    query: &Query,
    row: &Row,
) -> Result<Reply, Fail<Refusal>>
    requires { FitsDatabase query.now session.old.tables }
    ensures { IsReplyOutcome result session.old (Replies (answer_fault session.old.tables query.now row.now) session.old (MayTell session.old query.now row.now)) session.new }
{
    let bound = Bound::new(session.database(), query);
    if let Err(refusal) = check_row(&bound, row) {
        return Err(Fail::Refused(refusal));
    }
    let found = reason_of(alloc, &bound, row, session.budget());
    tell(alloc, session, query, row, found)
}

/// Answers why a row is certain for a query: by a block, or by its formula and a refutation of it; or why it isn't: by a
/// repair that holds no witness of it.
///
/// # Errors
///
/// The first check of the query that fails, and then that of the row. Where the query needs search, also `WitnessLimit`
/// exactly where the row has too many witnesses, and `Spent` where the budget doesn't suffice; the row's formula and the
/// spent log are kept then. Where its two atoms attack each other weakly, also `WitnessLimit` exactly where the row is
/// certain and has too many.
pub fn explain(
    alloc: Global,
    session: &mut SessionState,
    row: &Row,
    select: &Select,
) -> Result<Reply, Fail<Refusal>>
    ensures { IsReplyOutcome result session.old (Replies (query_fault session.old.tables select.now) session.old (Explains session.old row.now select.now)) session.new }
{
    let query = resolve(alloc, session.database(), select)?;
    let reply = check_and_tell(alloc, session, &query, row);
    drop(query);
    reply
}
