//! `create`: a table without rows.

ghost use Rattle.query_resolve.specs.Checks.{schema_fault};
ghost use Rattle.session_state.specs.Replying.{Replies, IsReplyOutcome};
ghost use Rattle.session_state.specs.Create.{Creates};

use crate::state::SessionState;
use cqa_value::Fail;
use query_resolve::resolve_schema;
use refusals::Refusal;
use reply_text::Reply;
use spj_syntax::RawSchema;
use std::alloc::Global;

/// Makes a table.
///
/// # Errors
///
/// The first check of a schema that fails.
pub fn create(
    alloc: Global,
    session: &mut SessionState,
    raw: &RawSchema,
) -> Result<Reply, Fail<Refusal>>
    ensures { IsReplyOutcome result session.old (Replies (schema_fault session.old.tables raw.now) session.old (Creates session.old raw.now)) session.new }
{
    let name = raw.name.copy(alloc)?;
    let schema = resolve_schema(alloc, &session.database, raw)?;
    session.database.create(alloc, schema)?;
    Ok(Reply::Created(name))
}
