//! `classify` of a union: the class of each part, and whether the parts are apart.

ghost use Rattle.query_resolve.specs.Checks.{union_fault};
ghost use Rattle.session_state.specs.Replying.{Replies, IsReplyOutcome};
ghost use Rattle.query_statements.specs.ClassifyUnion.{ClassifiesUnion};

use cqa_value::Fail;
use query_replies::class_of_parts;
use query_resolve::resolve_all;
use refusals::Refusal;
use reply_text::Reply;
use session_state::SessionState;
use spj_syntax::Selects;
use std::alloc::Global;

/// Answers the class of each part of a union, and which table that isn't strict stands in two parts.
///
/// # Errors
///
/// The first check of the union that fails.
pub fn classify_union(
    alloc: Global,
    session: &SessionState,
    selects: &Selects,
) -> Result<Reply, Fail<Refusal>>
    ensures { IsReplyOutcome result session.now (Replies (union_fault session.now.tables selects.now.parts) session.now (ClassifiesUnion session.now selects.now.parts)) session.now }
{
    let database = session.database();
    let parts = resolve_all(alloc, database, selects)?;
    let reply = class_of_parts(alloc, database, selects.parts.as_slice(), parts.as_slice());
    drop(parts);
    Ok(reply?)
}
