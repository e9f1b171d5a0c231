//! Which table that isn't strict stands in two parts of a union, by its name.

ghost use Rattle.std.specs.Prelude.{IfOk};
ghost use Rattle.cqa_model.specs.Unions.{AreParts};
ghost use Rattle.query_strategy.specs.Apart.{IsFirstShared};
ghost use Rattle.query_replies.specs.Classes.{IsSharedName};
ghost use Rattle.query_replies.specs.Parts.{TellsShared};

use crate::names::name_of;
use cqa_model::Query;
use cqa_value::{Name, NoMemory};
use query_strategy::{Shared, shared_table};
use reply_text::Reply;
use std::alloc::Global;
use table_blocks::Database;

/// The name of the first table that isn't strict and stands in two parts, if there is one.
pub(crate) fn shared_name(
    alloc: Global,
    database: &Database,
    parts: &[Query],
) -> Result<Option<Name>, NoMemory>
    requires { AreParts parts.now database.now }
    ensures { IfOk result (IsSharedName database.now parts.now) }
{
    match shared_table(parts) {
        None => Ok(None),
        Some(shared) => Ok(Some(name_of(alloc, database, shared.table)?)),
    }
}

/// Answers which table two parts share.
pub(crate) fn shares_of(
    alloc: Global,
    database: &Database,
    _parts: &[Query],
    shared: Shared,
) -> Result<Reply, NoMemory>
    requires parts { AreParts _parts.now database.now }
    requires shared { IsFirstShared _parts.now shared }
    ensures { IfOk result (TellsShared database.now _parts.now) }
{
    Ok(Reply::Shares {
        first: shared.first as u32 + 1,
        second: shared.second as u32 + 1,
        table: name_of(alloc, database, shared.table)?,
    })
}
