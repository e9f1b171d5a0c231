//! `insert`: rows are put into a table.

ghost use Rattle.std.specs.Prelude.{◌≤◌, length};
ghost use Rattle.spj_syntax.specs.Limits.{most_items};
ghost use Rattle.session_state.specs.Replying.{Replies, IsReplyOutcome};
ghost use Rattle.session_state.specs.Insert.{insert_into_fault, InsertsInto};

use crate::state::SessionState;
use crate::table_place::table_place;
use cqa_value::{Fail, Items, Name, Row};
use refusals::Refusal;
use reply_text::Reply;
use std::alloc::Global;

/// Puts rows into a table.
///
/// # Errors
///
/// `UnknownTable`, or the first check of the rows that fails.
pub fn insert(
    alloc: Global,
    session: &mut SessionState,
    name: &Name,
    rows: Items<Row>,
) -> Result<Reply, Fail<Refusal>>
    requires { length rows ≤ most_items }
    ensures { IsReplyOutcome result session.old (Replies (insert_into_fault session.old.tables name.now rows) session.old (InsertsInto session.old name.now rows)) session.new }
{
    let table = table_place(alloc, &session.database, name)?;
    let count = table_changes::insert(&mut session.database, table, rows)?;
    Ok(Reply::Inserted(count))
}
