//! `show conflicts`: how much of each table breaks its key.

ghost use Rattle.std.specs.Prelude.{◌<◌, None, IfOk, IfSome, length, slice_get};
ghost use Rattle.session_state.specs.Replying.{Replies, IsReplyOutcome};
ghost use Rattle.session_state.specs.ShowConflicts.{IsConflictLine, ShowsConflicts};

use crate::state::SessionState;
use cqa_value::{Fail, Items, NoMemory};
use refusals::Refusal;
use reply_text::{ConflictLine, Reply};
use row_cursor::block_counts;
use std::alloc::Global;
use table_blocks::Database;

/// The line of a table.
fn conflict_line(alloc: Global, database: &Database, table: u32) -> Result<ConflictLine, NoMemory>
    requires { table < length database.now }
    ensures { IfOk result (λ line. IfSome (slice_get database.now table) (λ t. IsConflictLine t line)) }
{
    let name = database.schema(table).name.copy(alloc)?;
    let rows = database.rows(table).len() as u32;
    let counts = block_counts(database, table);
    Ok(ConflictLine {
        name,
        rows,
        blocks: counts.blocks,
        conflicts: counts.conflicts,
    })
}

/// Answers a line for each table.
pub fn show_conflicts(alloc: Global, session: &SessionState) -> Result<Reply, Fail<Refusal>>
    ensures { IsReplyOutcome result session.now (Replies None session.now (ShowsConflicts session.now)) session.now }
{
    let database = session.database();
    let mut lines = Items::new(alloc);
    for table in 0..database.count() {
        lines.push(conflict_line(alloc, database, table)?)?;
    }
    Ok(Reply::Contested(lines))
}
