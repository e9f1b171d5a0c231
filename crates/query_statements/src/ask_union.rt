//! `ask` of a union: the rows that are certain for it. A search that used up its budget keeps its log.

ghost use Rattle.cqa_model.specs.Unions.{AreParts};
ghost use Rattle.query_resolve.specs.Checks.{union_fault};
ghost use Rattle.union_ask.specs.Searching.{IsSearchedIn};
ghost use Rattle.session_state.specs.Replying.{Replies, IsReplyOutcome};
ghost use Rattle.query_statements.specs.AskUnion.{AnswersUnion, TellsUnion};

use crate::stopped::refuse_stop;
use cqa_model::Query;
use cqa_value::Fail;
use part_search::{BoundParts, Searched};
use query_resolve::resolve_all;
use refusals::Refusal;
use reply_text::Reply;
use session_state::SessionState;
use spj_syntax::Selects;
use std::alloc::Global;
use union_ask::certain_of_union;

/// What the search for the certain rows came to, as a reply.
fn reply_to(
    session: &mut SessionState,
    _parts: &[Query],
    found: Searched,
) -> Result<Reply, Fail<Refusal>>
    requires { IsSearchedIn session.old.tables _parts.now session.old.budget found }
    ensures { IsReplyOutcome result session.old (TellsUnion session.old _parts.now) session.new }
{
    match found {
        Searched::All(rows) => Ok(Reply::Rows(rows)),
        Searched::Stopped(stop) => Err(Fail::Refused(refuse_stop(session, stop))),
    }
}

/// Answers the rows that are certain for parts that fit the tables.
fn tell_rows(
    alloc: Global,
    session: &mut SessionState,
    parts: &[Query],
) -> Result<Reply, Fail<Refusal>>
    requires { AreParts parts.now session.old.tables }
    ensures { IsReplyOutcome result session.old (TellsUnion session.old parts.now) session.new }
{
    let bound = BoundParts::new(session.database(), parts);
    let found = certain_of_union(alloc, &bound, session.budget())?;
    reply_to(session, parts, found)
}

/// Answers the rows that are certain for a union.
///
/// # Errors
///
/// The first check of the union that fails; `WitnessLimit` at the first candidate with too many witnesses for all parts together,
/// and `Spent` at a candidate before it for which the budget doesn't suffice.
pub fn ask_union(
    alloc: Global,
    session: &mut SessionState,
    selects: &Selects,
) -> Result<Reply, Fail<Refusal>>
    ensures { IsReplyOutcome result session.old (Replies (union_fault session.old.tables selects.now.parts) session.old (AnswersUnion session.old selects.now.parts)) session.new }
{
    let parts = resolve_all(alloc, session.database(), selects)?;
    let reply = tell_rows(alloc, session, parts.as_slice());
    drop(parts);
    reply
}
