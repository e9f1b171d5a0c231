//! `possible` of a union: the rows that are possible for it.

ghost use Rattle.query_resolve.specs.Checks.{union_fault};
ghost use Rattle.session_state.specs.Replying.{Replies, IsReplyOutcome};
ghost use Rattle.query_statements.specs.PossibleUnion.{AnswersPossibleUnion};

use cqa_value::Fail;
use part_search::BoundParts;
use query_resolve::resolve_all;
use refusals::Refusal;
use reply_text::Reply;
use session_state::SessionState;
use spj_syntax::Selects;
use std::alloc::Global;
use union_ask::union_candidates;

/// Answers the rows that are possible for a union.
///
/// # Errors
///
/// The first check of the union that fails.
pub fn possible_union(
    alloc: Global,
    session: &SessionState,
    selects: &Selects,
) -> Result<Reply, Fail<Refusal>>
    ensures { IsReplyOutcome result session.now (Replies (union_fault session.now.tables selects.now.parts) session.now (AnswersPossibleUnion session.now selects.now.parts)) session.now }
{
    let database = session.database();
    let parts = resolve_all(alloc, database, selects)?;
    let bound = BoundParts::new(database, parts.as_slice());
    let rows = union_candidates(alloc, &bound);
    drop(parts);
    Ok(Reply::Rows(rows?))
}
