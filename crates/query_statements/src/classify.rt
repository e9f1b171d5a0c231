//! `classify`: the class of a query and the attacks between its atoms.

ghost use Rattle.query_resolve.specs.Checks.{query_fault};
ghost use Rattle.session_state.specs.Replying.{Replies, IsReplyOutcome};
ghost use Rattle.query_statements.specs.Classify.{Classifies};

use cqa_value::Fail;
use query_replies::class_of_query;
use query_resolve::resolve;
use refusals::Refusal;
use reply_text::Reply;
use session_state::SessionState;
use spj_syntax::Select;
use std::alloc::Global;

/// Answers the class of a query, and the attacks between its atoms.
///
/// # Errors
///
/// The first check of the query that fails.
pub fn classify(
    alloc: Global,
    session: &SessionState,
    select: &Select,
) -> Result<Reply, Fail<Refusal>>
    ensures { IsReplyOutcome result session.now (Replies (query_fault session.now.tables select.now) session.now (Classifies session.now select.now)) session.now }
{
    let query = resolve(alloc, session.database(), select)?;
    let found = class_of_query(alloc, &query, select.tables.as_slice());
    drop(query);
    let part = found?;
    Ok(Reply::Classified {
        class: part.class,
        lines: part.lines,
    })
}
