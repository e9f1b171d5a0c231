//! The schema of a new table, check by check.

ghost use Rattle.std.specs.Prelude.{◌≡◌, ◌<◌, ⊤, [], OnOk, Contains, length};
ghost use Rattle.cqa_model.specs.declared.limits.TheConstants.{MOST_TABLES};
ghost use Rattle.cqa_model.specs.Database.{names_of};
ghost use Rattle.refusals.specs.Refusal.{Checked};
ghost use Rattle.query_resolve.specs.Checks.{first_fault, table_fault, duplicate_fault, schema_fault};
ghost use Rattle.query_resolve.specs.Resolved.{IsSchemaOf};

use crate::faults::limit;
use crate::key::key_places;
use crate::names::place_of_column;
use cqa_model::{Column, MOST_COLUMNS, MOST_TABLES, Schema};
use cqa_value::{Fail, Items};
use refusals::{LimitKind, Refusal};
use spj_syntax::RawSchema;
use std::alloc::Global;
use table_blocks::Database;

/// The schema of a table that can be made.
///
/// # Errors
///
/// `TableExists`, `Limit` with the tables or the columns, `DuplicateColumn` or `BadKey`, the first that applies; `NoMemory`
/// where memory is refused.
pub fn resolve_schema(
    alloc: Global,
    db: &Database,
    raw: &RawSchema,
) -> Result<Schema, Fail<Refusal>>
    ensures checked { Checked result (schema_fault db.now raw.now) (IsSchemaOf raw.now) }

    // The table can be made.
    ensures room { OnOk result (length db.now < MOST_TABLES) }
    ensures free { OnOk result (Contains (names_of db.now) raw.now.name → ⊥) }
{
    check_table(alloc, db, raw)?;
    let columns = distinct_columns(alloc, raw.columns.as_slice())?;
    let key = key_places(alloc, raw.columns.as_slice(), raw.key.as_slice())?;
    let name = raw.name.copy(alloc)?;
    Ok(Schema {
        name,
        columns,
        key,
        strict: raw.strict,
    })
}

/// Whether the database has room for the table, and the table isn't too wide.
fn check_table(alloc: Global, db: &Database, raw: &RawSchema) -> Result<(), Fail<Refusal>>
    ensures { Checked result (table_fault db.now raw.now) (λ _. ⊤) }
{
    if db.find(&raw.name).is_some() {
        let name = raw.name.copy(alloc)?;
        return Err(Fail::Refused(Refusal::TableExists { name }));
    }
    if db.count() >= MOST_TABLES {
        return Err(limit(LimitKind::Tables));
    }
    if raw.columns.as_slice().len() > MOST_COLUMNS {
        return Err(limit(LimitKind::Columns));
    }
    Ok(())
}

/// A copy of columns of different names.
fn distinct_columns(alloc: Global, columns: &[Column]) -> Result<Items<Column>, Fail<Refusal>>
    ensures { Checked result (first_fault duplicate_fault [] columns.now) (λ copies. copies ≡ columns.now) }
{
    let mut copies = Vec::with_capacity(alloc, columns.len())?;
    for (at, column) in columns.iter().enumerate() {
        copies.push(fresh_column(alloc, column, &columns[..at])?)?;
    }
    Ok(Items::from_vec(copies))
}

/// A copy of a column whose name hasn't stood before.
fn fresh_column(alloc: Global, column: &Column, before: &[Column]) -> Result<Column, Fail<Refusal>>
    ensures { Checked result (duplicate_fault before.now column.now) (λ copy. copy ≡ column.now) }
{
    if place_of_column(before, &column.name).is_some() {
        let name = column.name.copy(alloc)?;
        return Err(Fail::Refused(Refusal::DuplicateColumn { name }));
    }
    Ok(column.copy(alloc)?)
}
