//! `possible`: the possible rows of a query.

ghost use Rattle.query_resolve.specs.Checks.{query_fault};
ghost use Rattle.session_state.specs.Replying.{Replies, IsReplyOutcome};
ghost use Rattle.query_statements.specs.Possible.{AnswersPossible};

use cqa_value::Fail;
use join_witness::candidates;
use query_resolve::resolve;
use refusals::Refusal;
use reply_text::Reply;
use session_state::SessionState;
use spj_syntax::Select;
use std::alloc::Global;
use table_blocks::Bound;

/// Answers the possible rows of a query.
///
/// # Errors
///
/// The first check of the query that fails.
pub fn possible(
    alloc: Global,
    session: &SessionState,
    select: &Select,
) -> Result<Reply, Fail<Refusal>>
    ensures { IsReplyOutcome result session.now (Replies (query_fault session.now.tables select.now) session.now (AnswersPossible session.now select.now)) session.now }
{
    let database = session.database();
    let query = resolve(alloc, database, select)?;
    let bound = Bound::new(database, &query);
    let rows = candidates(alloc, &bound);
    drop(query);
    Ok(Reply::Rows(rows?))
}
