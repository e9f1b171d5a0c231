//! `explain` of a union: why a row is certain for it, or why it isn't.

ghost use Rattle.std.specs.Prelude.{IfErr, IfOk};
ghost use Rattle.cqa_model.specs.Unions.{AreParts};
ghost use Rattle.query_resolve.specs.Checks.{union_fault, union_row_fault};
ghost use Rattle.union_ask.specs.Reasons.{IsReasonIn, IsStoppedIn};
ghost use Rattle.session_state.specs.Replying.{Replies, IsReplyOutcome};
ghost use Rattle.reason_statements.specs.ExplainUnion.{ExplainsUnion, MayTellUnion};

use crate::explain::{refuted, rejected};
use cqa_model::Query;
use cqa_value::{Fail, Row};
use part_search::BoundParts;
use query_resolve::{check_union_row, resolve_all};
use refusals::Refusal;
use repair_back::{Reason, Untold};
use reply_text::{Proof, Reply};
use session_state::{SessionState, refuse_row};
use spj_syntax::Selects;
use std::alloc::Global;
use union_ask::decide_union;

/// The reply that tells a reason, which is no block.
fn reply_to(
    alloc: Global,
    session: &mut SessionState,
    _parts: &[Query],
    _row: &Row,
    reason: Reason,
) -> Result<Reply, Fail<Refusal>>
    requires { IsReasonIn session.old.tables _parts.now _row.now session.old.budget reason }
    ensures { IsReplyOutcome result session.old (MayTellUnion session.old _parts.now _row.now) session.new }
{
    match reason {
        Reason::ByBlock { .. } => unreachable!(),
        Reason::Rejected(names) => Ok(rejected(alloc, session.database(), names)?),
        Reason::Refuted { cnf, log } => Ok(refuted(alloc, session, Proof { cnf, log })?),
    }
}

/// Tells why a row is certain, or why it isn't, or what keeps that from being told.
fn tell(
    alloc: Global,
    session: &mut SessionState,
    parts: &[Query],
    row: &Row,
    found: Result<Reason, Fail<Untold>>,
) -> Result<Reply, Fail<Refusal>>
    requires told { IfOk found (IsReasonIn session.old.tables parts.now row.now session.old.budget) }
    requires stopped { IfErr found (IsStoppedIn session.old.tables parts.now row.now session.old.budget) }
    ensures { IsReplyOutcome result session.old (MayTellUnion session.old parts.now row.now) session.new }
{
    match found {
        Ok(reason) => reply_to(alloc, session, parts, row, reason),
        Err(Fail::Refused(stop)) => Err(refuse_row(alloc, session, row, stop)),
        Err(Fail::NoMemory) => Err(Fail::NoMemory),
    }
}

/// Checks a row against parts that fit the tables, and tells why it is certain for their union, or why it isn't.
fn check_and_tell(
    alloc: Global,
    session: &mut SessionState,
    parts: &[Query],
    row: &Row,
) -> Result<Reply, Fail<Refusal>>
    requires { AreParts parts.now session.old.tables }
    ensures { IsReplyOutcome result session.old (Replies (union_row_fault session.old.tables parts.now row.now) session.old (MayTellUnion session.old parts.now row.now)) session.new }
{
    let database = session.database();
    if let Err(refusal) = check_union_row(database, parts, row) {
        return Err(Fail::Refused(refusal));
    }
    let bound = BoundParts::new(database, parts);
    let found = decide_union(alloc, &bound, row, session.budget());
    tell(alloc, session, parts, row, found)
}

/// Answers why a row is certain for a union, by its formula and a refutation of it, or why it isn't, by a repair that holds no
/// witness of it for any part.
///
/// # Errors
///
/// The first check of the union that fails, and then that of the row against the first part. `WitnessLimit` exactly where the row
/// has too many witnesses for all parts together; `Spent` where the budget doesn't suffice: the row's formula and the spent log are
/// kept then.
pub fn explain_union(
    alloc: Global,
    session: &mut SessionState,
    row: &Row,
    selects: &Selects,
) -> Result<Reply, Fail<Refusal>>
    ensures { IsReplyOutcome result session.old (Replies (union_fault session.old.tables selects.now.parts) session.old (ExplainsUnion session.old row.now selects.now.parts)) session.new }
{
    let parts = resolve_all(alloc, session.database(), selects)?;
    let reply = check_and_tell(alloc, session, parts.as_slice(), row);
    drop(parts);
    reply
}
