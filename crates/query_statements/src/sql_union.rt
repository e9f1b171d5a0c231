//! `sql` of a union: the certain rows of parts that have plans and are apart, as one query in SQL.

ghost use Rattle.query_resolve.specs.Checks.{union_fault};
ghost use Rattle.session_state.specs.Replying.{Replies, IsReplyOutcome};
ghost use Rattle.query_statements.specs.SqlUnion.{WritesUnionSql};

use cqa_value::Fail;
use query_replies::sql_of_parts;
use query_resolve::resolve_all;
use refusals::Refusal;
use reply_text::Reply;
use session_state::SessionState;
use spj_syntax::Selects;
use std::alloc::Global;
use union_ask::candidates_decide;

/// Answers the plans of the parts of a union in SQL, put together; or the first part that has none; or else which table that isn't
/// strict stands in two parts.
///
/// # Errors
///
/// The first check of the union that fails.
pub fn sql_union(
    alloc: Global,
    session: &SessionState,
    selects: &Selects,
) -> Result<Reply, Fail<Refusal>>
    ensures { IsReplyOutcome result session.now (Replies (union_fault session.now.tables selects.now.parts) session.now (WritesUnionSql session.now selects.now.parts)) session.now }
{
    let database = session.database();
    let parts = resolve_all(alloc, database, selects)?;
    let reply = sql_of_parts(alloc, database, selects.parts.as_slice(), parts.as_slice());
    drop(parts);
    // The law by which the parts' certain rows are those of the union.
    candidates_decide();
    Ok(reply?)
}
