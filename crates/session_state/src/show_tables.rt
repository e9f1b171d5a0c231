//! `show tables`: each table's schema with its numbers of rows and blocks.

ghost use Rattle.std.specs.Prelude.{◌<◌, None, IfOk, IfSome, length, slice_get};
ghost use Rattle.session_state.specs.Replying.{Replies, IsReplyOutcome};
ghost use Rattle.session_state.specs.ShowTables.{IsTableLine, ShowsTables};

use crate::state::SessionState;
use cqa_value::{Fail, Items, NoMemory};
use refusals::Refusal;
use reply_text::{Reply, TableLine};
use row_cursor::block_count;
use std::alloc::Global;
use table_blocks::Database;

/// The line of a table.
fn table_line(alloc: Global, database: &Database, table: u32) -> Result<TableLine, NoMemory>
    requires { table < length database.now }
    ensures { IfOk result (λ line. IfSome (slice_get database.now table) (λ t. IsTableLine t line)) }
{
    let schema = database.schema(table).copy(alloc)?;
    let rows = database.rows(table).len() as u32;
    let blocks = block_count(database, table);
    Ok(TableLine {
        schema,
        rows,
        blocks,
    })
}

/// Answers a line for each table.
pub fn show_tables(alloc: Global, session: &SessionState) -> Result<Reply, Fail<Refusal>>
    ensures { IsReplyOutcome result session.now (Replies None session.now (ShowsTables session.now)) session.now }
{
    let database = session.database();
    let mut lines = Items::new(alloc);
    for table in 0..database.count() {
        lines.push(table_line(alloc, database, table)?)?;
    }
    Ok(Reply::Tables(lines))
}
