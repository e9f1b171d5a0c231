//! `copy`: the rows of a block of CSV are put into a table.

ghost use Rattle.std.specs.Prelude.{◌≡◌};
ghost use Rattle.std.specs.Option.{option_copied};
ghost use Rattle.session_state.specs.Replying.{Replies, IsReplyOutcome};
ghost use Rattle.session_state.specs.Copy.{block_bytes, copy_into_fault, CopiesInto};

use crate::state::SessionState;
use crate::table_place::table_place;
use cqa_value::{Fail, Name};
use csv_rows::read_rows;
use refusals::Refusal;
use reply_text::Reply;
use std::alloc::Global;
use table_changes::load;

/// The bytes of a block; none where there is no block.
fn bytes_of(block: Option<&[u8]>) -> &[u8]
    ensures { result.now ≡ block_bytes (option_copied block.entry) }
{
    match block {
        Some(bytes) => bytes,
        None => &[],
    }
}

/// Puts the rows of a block into a table.
///
/// # Errors
///
/// `UnknownTable`, the first record of the block that is no row, or the first check of the rows that fails.
pub fn copy(
    alloc: Global,
    session: &mut SessionState,
    name: &Name,
    block: Option<&[u8]>,
) -> Result<Reply, Fail<Refusal>>
    ensures { IsReplyOutcome result session.old (Replies (copy_into_fault session.old.tables name.now) session.old (CopiesInto session.old name.now (option_copied block.entry))) session.new }
{
    let table = table_place(alloc, &session.database, name)?;
    let read = read_rows(alloc, session.database.schema(table), bytes_of(block))?;
    let count = load(&mut session.database, table, read.sorted, read.rest)?;
    Ok(Reply::Copied(count))
}
