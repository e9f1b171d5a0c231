//! The names of tables and of their columns.

ghost use Rattle.std.specs.Prelude.{◌≡◌, ◌<◌, IfOk, length, map};
ghost use Rattle.cqa_model.specs.declared.query.Atom.{Atom as AtomValue};
ghost use Rattle.cqa_model.specs.declared.schema.Column.{Column as ColumnValue};
ghost use Rattle.query_replies.specs.Names.{column_names, table_name_at};

use cqa_model::Column;
use cqa_value::{Items, Name, NoMemory};
use std::alloc::Global;
use table_blocks::{Bound, Database};

/// The name of a table.
///
/// # Errors
///
/// `NoMemory` where memory is refused.
pub fn name_of(alloc: Global, db: &Database, table: u32) -> Result<Name, NoMemory>
    requires { table < length db.now }
    ensures { IfOk result (λ name. name ≡ table_name_at db.now table) }
{
    db.schema(table).name.copy(alloc)
}

/// A copy of these names.
pub(crate) fn copied(alloc: Global, names: &[Name]) -> Result<Items<Name>, NoMemory>
    ensures { IfOk result (λ copies. copies ≡ names.now) }
{
    let mut copies = Items::new(alloc);
    for name in names {
        copies.push(name.copy(alloc)?)?;
    }
    Ok(copies)
}

/// The names of the columns of each atom's table.
pub(crate) fn columns_of(alloc: Global, bound: &Bound<'_>) -> Result<Items<Items<Name>>, NoMemory>
    ensures { IfOk result (λ columns. columns ≡ map (λ (atom : AtomValue). column_names bound.now.db.now atom.table) bound.now.query.now.atoms) }
{
    let mut columns = Items::new(alloc);
    for atom in bound.query.atoms.as_slice() {
        columns.push(names_of_table(alloc, bound.db, atom.table)?)?;
    }
    Ok(columns)
}

/// The names of a table's columns.
fn names_of_table(alloc: Global, database: &Database, table: u32) -> Result<Items<Name>, NoMemory>
    requires { table < length database.now }
    ensures { IfOk result (λ names. names ≡ column_names database.now table) }
{
    names_of(alloc, database.schema(table).columns.as_slice())
}

/// The names of columns.
fn names_of(alloc: Global, columns: &[Column]) -> Result<Items<Name>, NoMemory>
    ensures { IfOk result (λ names. names ≡ map (λ (column : ColumnValue). column.name) columns.now) }
{
    let mut names = Items::new(alloc);
    for column in columns {
        names.push(column.name.copy(alloc)?)?;
    }
    Ok(names)
}
