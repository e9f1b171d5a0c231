//! `dump`: the script that makes the tables with their rows.

ghost use Rattle.std.specs.Prelude.{None};
ghost use Rattle.session_state.specs.Replying.{Replies, IsReplyOutcome};
ghost use Rattle.session_state.specs.Dump.{Dumps};

use crate::state::SessionState;
use cqa_value::{Fail, Items};
use csv_rows::append_table;
use refusals::Refusal;
use reply_text::Reply;
use std::alloc::Global;

/// Answers the script that makes the tables with their rows.
pub fn dump(alloc: Global, session: &SessionState) -> Result<Reply, Fail<Refusal>>
    ensures { IsReplyOutcome result session.now (Replies None session.now (Dumps session.now)) session.now }
{
    let database = session.database();
    let mut script = Vec::new(alloc);
    for table in 0..database.count() {
        script = append_table(alloc, database.schema(table), &database.rows(table), script)?;
    }
    Ok(Reply::Dumped(Items::from_vec(script)))
}
