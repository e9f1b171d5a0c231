//! The rows that a repair keeps, each as a line with the name of its table.

ghost use Rattle.std.specs.Prelude.{◌≡◌, ◌<◌, IfOk, [], length, map, slice_index_or};
ghost use Rattle.cqa_model.specs.Database.{stored};
ghost use Rattle.table_blocks.specs.Tables.{AreStored};
ghost use Rattle.query_replies.specs.Kept.{kept_line};

use crate::names::name_of;
use cqa_model::RowId;
use cqa_value::{Items, NoMemory};
use reply_text::KeptRow;
use std::alloc::Global;
use table_blocks::Database;

/// The line of a row that a repair keeps.
fn kept_row(alloc: Global, db: &Database, name: RowId) -> Result<KeptRow, NoMemory>
    requires table { name.table < length db.now }
    requires place { name.place < length (slice_index_or (stored db.now) name.table []) }
    ensures { IfOk result (λ line. line ≡ kept_line db.now name) }
{
    let row = db.rows(name.table).get(name.place as usize);
    Ok(KeptRow {
        table: name_of(alloc, db, name.table)?,
        row: row.copy(alloc)?,
    })
}

/// The lines of rows that a repair keeps.
///
/// # Errors
///
/// `NoMemory` where memory is refused.
pub fn kept_rows(alloc: Global, db: &Database, names: &[RowId]) -> Result<Items<KeptRow>, NoMemory>
    requires { AreStored db.now names.now }
    ensures { IfOk result (λ lines. lines ≡ map (kept_line db.now) names.now) }
{
    let mut lines = Items::new(alloc);
    for name in names {
        lines.push(kept_row(alloc, db, *name)?)?;
    }
    Ok(lines)
}
