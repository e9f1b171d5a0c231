//! `alter`: a table gets another mark or another key.

ghost use Rattle.std.specs.Prelude.{◌≡◌, ◌<◌, OnOk, OnErr, length};
ghost use Rattle.refusals.specs.Refusal.{Checked};
ghost use Rattle.spj_syntax.specs.Written.{HasKey};
ghost use Rattle.table_blocks.specs.Tables.{AreValidTables};
ghost use Rattle.session_state.specs.Replying.{Replies, IsReplyOutcome};
ghost use Rattle.session_state.specs.Alter.{change_fault, alter_fault, Changes, Alters};

use crate::state::SessionState;
use crate::table_place::table_place;
use cqa_value::{Fail, Name};
use query_resolve::resolve_key;
use refusals::Refusal;
use reply_text::Reply;
use spj_syntax::Change;
use std::alloc::Global;
use table_blocks::Database;
use table_changes::{set_key, set_strict};

/// Changes the mark or the key of a table.
///
/// # Errors
///
/// `UnknownTable`, or the first check of the change that fails.
pub fn alter(
    alloc: Global,
    session: &mut SessionState,
    name: &Name,
    change: &Change,
) -> Result<Reply, Fail<Refusal>>
    requires { HasKey change.now }
    ensures { IsReplyOutcome result session.old (Replies (alter_fault session.old.tables name.now change.now) session.old (Alters session.old name.now change.now)) session.new }
{
    let table = table_place(alloc, &session.database, name)?;
    let altered = name.copy(alloc)?;
    apply(alloc, &mut session.database, table, change)?;
    Ok(Reply::Altered(altered))
}

/// Changes the table at a place.
fn apply(
    alloc: Global,
    database: &mut Database,
    table: u32,
    change: &Change,
) -> Result<(), Fail<Refusal>>
    requires there { table < length database.old }
    requires key { HasKey change.now }
    ensures checked { Checked result (change_fault database.old change.now table) (λ _. Changes database.old table change.now database.new) }
    ensures err { OnErr result (database.new ≡ database.old) }
    ensures stored { OnOk result (AreValidTables database.new) }
{
    match change {
        Change::SetStrict => set_strict(database, table),
        Change::DropStrict => {
            database.drop_strict(table);
            Ok(())
        }
        Change::SetKey(names) => {
            let key = resolve_key(alloc, database, table, names.as_slice())?;
            set_key(database, table, key)
        }
    }
}
