//! `delete`: the rows for which all tests hold are taken from a table.

ghost use Rattle.std.specs.Prelude.{◌≤◌, length};
ghost use Rattle.spj_syntax.specs.Limits.{most_items};
ghost use Rattle.session_state.specs.Replying.{Replies, IsReplyOutcome};
ghost use Rattle.session_state.specs.Delete.{delete_from_fault, DeletesFrom};

use crate::state::SessionState;
use crate::table_place::table_place;
use cqa_value::{Fail, Name};
use query_resolve::resolve_tests;
use refusals::Refusal;
use reply_text::Reply;
use spj_syntax::RawTest;
use std::alloc::Global;

/// Takes the rows for which all tests hold from a table.
///
/// # Errors
///
/// `UnknownTable`, or the first check of the tests that fails.
pub fn delete(
    alloc: Global,
    session: &mut SessionState,
    name: &Name,
    tests: &[RawTest],
) -> Result<Reply, Fail<Refusal>>
    requires { length tests.now ≤ most_items }
    ensures { IsReplyOutcome result session.old (Replies (delete_from_fault session.old.tables name.now tests.now) session.old (DeletesFrom session.old name.now tests.now)) session.new }
{
    let table = table_place(alloc, &session.database, name)?;
    let tests = resolve_tests(alloc, &session.database, table, tests)?;
    let count = session.database.delete(table, tests.as_slice());
    Ok(Reply::Deleted(count))
}
