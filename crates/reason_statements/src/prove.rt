//! `prove`: the certificate of a row that is certain by a plan, or a repair that rejects it.

ghost use Rattle.std.specs.Prelude.{◌≡◌, length};
ghost use Rattle.cqa_model.specs.Certain.{IsCertain};
ghost use Rattle.cqa_model.specs.Plan.{IsPlanOf, IsExact};
ghost use Rattle.cqa_model.specs.Query.{FitsDatabase};
ghost use Rattle.query_resolve.specs.Checks.{query_fault, answer_fault};
ghost use Rattle.session_state.specs.Replying.{Replies, IsReplyOutcome};
ghost use Rattle.reason_statements.specs.Prove.{IsProofOutcome, MayProve, ProvesRow};

use crate::explain::rejected;
use cqa_model::{Plan, Query};
use cqa_value::{Fail, Row};
use fo_rewrite::plan_of;
use plan_reasons::reason_by_plan;
use query_resolve::{check_row, resolve};
use refusals::Refusal;
use repair_back::Reason;
use reply_text::Reply;
use rewrite_text::{TooLong, certificate};
use session_state::SessionState;
use spj_syntax::Select;
use std::alloc::Global;
use table_blocks::Bound;

/// The certificate of a certain row.
fn certified(
    alloc: Global,
    bound: &Bound<'_>,
    plan: &Plan,
    row: &Row,
) -> Result<Reply, Fail<Refusal>>
    requires plan { IsPlanOf bound.now.query.now plan.now.order }
    requires exact { IsExact bound.now.query.now plan.now.order }
    requires certain { IsCertain bound.now.db.now bound.now.query.now row.now }
    requires long { length row.now ≡ length bound.now.query.now.answer }
    ensures { IsProofOutcome result bound.now.db.now bound.now.query.now row.now }
{
    match certificate(alloc, bound, plan, row) {
        Ok(text) => Ok(Reply::Certificate(text)),
        Err(Fail::Refused(TooLong)) => Err(Fail::Refused(Refusal::CertificateLimit)),
        Err(Fail::NoMemory) => Err(Fail::NoMemory),
    }
}

/// The certificate of a row by a plan, or a repair that rejects it.
fn by_plan(alloc: Global, bound: &Bound<'_>, plan: &Plan, row: &Row) -> Result<Reply, Fail<Refusal>>
    requires plan { IsPlanOf bound.now.query.now plan.now.order }
    requires exact { IsExact bound.now.query.now plan.now.order }
    requires long { length row.now ≡ length bound.now.query.now.answer }
    ensures { IsProofOutcome result bound.now.db.now bound.now.query.now row.now }
{
    match reason_by_plan(alloc, bound, plan, row)? {
        Reason::Rejected(names) => Ok(rejected(alloc, bound.db, names)?),
        Reason::ByBlock { table: _, key } => {
            drop(key);
            certified(alloc, bound, plan, row)
        }
        Reason::Refuted { .. } => unreachable!(),
    }
}

/// The same, or that the query has no plan.
fn proved(alloc: Global, bound: &Bound<'_>, row: &Row) -> Result<Reply, Fail<Refusal>>
    requires { length row.now ≡ length bound.now.query.now.answer }
    ensures { IsProofOutcome result bound.now.db.now bound.now.query.now row.now }
{
    let Some(plan) = plan_of(alloc, bound.query)? else {
        return Ok(Reply::NoPlan);
    };
    let reply = by_plan(alloc, bound, &plan, row);
    drop(plan);
    reply
}

/// Checks a row against a query that fits the tables, and proves it.
fn check_and_prove(
    alloc: Global,
    session: &SessionState,
    query: &Query,
    row: &Row,
) -> Result<Reply, Fail<Refusal>>
    requires { FitsDatabase query.now session.now.tables }
    ensures { IsReplyOutcome result session.now (Replies (answer_fault session.now.tables query.now row.now) session.now (MayProve session.now query.now row.now)) session.now }
{
    let bound = Bound::new(session.database(), query);
    if let Err(refusal) = check_row(&bound, row) {
        return Err(Fail::Refused(refusal));
    }
    proved(alloc, &bound, row)
}

/// Answers the certificate of a row that is certain for a query which has a plan, or a repair that holds no witness of the
/// row, or that the query has no plan.
///
/// # Errors
///
/// The first check of the query that fails, and then that of the row; `CertificateLimit` exactly where the query has a plan,
/// the row is certain, and the certificate is too long.
pub fn prove(
    alloc: Global,
    session: &SessionState,
    row: &Row,
    select: &Select,
) -> Result<Reply, Fail<Refusal>>
    ensures { IsReplyOutcome result session.now (Replies (query_fault session.now.tables select.now) session.now (ProvesRow session.now row.now select.now)) session.now }
{
    let query = resolve(alloc, session.database(), select)?;
    let reply = check_and_prove(alloc, session, &query, row);
    drop(query);
    reply
}
