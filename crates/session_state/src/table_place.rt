//! The table that a statement names.

ghost use Rattle.std.specs.Prelude.{◌≡◌, ℕ, Some, Option, IfOk, IfErr};
ghost use Rattle.refusals.specs.declared.refusal.Refusal.{Refusal as RefusalValue};
ghost use Rattle.refusals.specs.Refusal.{IsRefusedAs};
ghost use Rattle.table_blocks.specs.Tables.{table_named};
ghost use Rattle.session_state.specs.Replying.{on_table};

use cqa_value::{Fail, Name};
use query_resolve::unknown_table;
use refusals::Refusal;
use std::alloc::Global;
use table_blocks::Database;

/// The place of the table with a name.
///
/// # Errors
///
/// `UnknownTable` where there is none.
pub fn table_place(alloc: Global, database: &Database, name: &Name) -> Result<u32, Fail<Refusal>>
    ensures found { IfOk result (λ table. table_named database.now name.now ≡ Some table) }
    ensures missing { IfErr result (λ e. (check : ℕ → Option RefusalValue) → IsRefusedAs e (on_table database.now name.now check)) }
{
    match database.find(name) {
        Some(table) => Ok(table),
        None => Err(unknown_table(alloc, name)),
    }
}
