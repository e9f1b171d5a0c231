//! Schemas of tables, with their shape kept on the type.

ghost use Rattle.std.specs.Prelude.{◌≡◌, IfOk};
ghost use Rattle.cqa_model.specs.Shape.{IsSchema};

use cqa_value::{Items, Kind, Name, NoMemory};
use std::alloc::Global;

/// A column of a table.
pub struct Column {
    pub name: Name,
    pub kind: Kind,
}

impl Drop for Column {
    fn drop(self) {
        let Column { name: _, kind: _ } = self;
    }
}

impl Column {
    /// A column that equals this one.
    ///
    /// # Errors
    ///
    /// `NoMemory` where memory is refused.
    pub fn copy(&self, alloc: Global) -> Result<Column, NoMemory>
        ensures { IfOk result (λ column. column ≡ self.now) }
    {
        Ok(Column {
            name: self.name.copy(alloc)?,
            kind: self.kind,
        })
    }
}

/// The shape of a table: its name, its columns, the places of its key columns in the key's order, and whether it is
/// strict, which is to say that it never holds two rows of one key.
///
/// It has 1 to `MOST_COLUMNS` columns of different names, and its key is a list of one or more different columns.
pub struct Schema {
    pub name: Name,
    pub columns: Items<Column>,
    pub key: Items<u32>,
    pub strict: bool,
    pub ghost kept: { IsSchema columns key },
}

impl Drop for Schema {
    fn drop(self) {
        let Schema {
            name: _,
            columns: _,
            key: _,
            strict: _,
        } = self;
    }
}

impl Schema {
    /// A schema that equals this one.
    ///
    /// # Errors
    ///
    /// `NoMemory` where memory is refused.
    pub fn copy(&self, alloc: Global) -> Result<Schema, NoMemory>
        ensures { IfOk result (λ schema. schema ≡ self.now) }
    {
        let name = self.name.copy(alloc)?;
        let columns = copy_columns(alloc, self.columns.as_slice())?;
        let key = Items::from_slice(alloc, self.key.as_slice())?;
        Ok(Schema {
            name,
            columns,
            key,
            strict: self.strict,
        })
    }
}

fn copy_columns(alloc: Global, columns: &[Column]) -> Result<Items<Column>, NoMemory>
    ensures { IfOk result (λ copy. copy ≡ columns.now) }
{
    let mut copy = Vec::with_capacity(alloc, columns.len())?;
    for column in columns {
        copy.push(column.copy(alloc)?)?;
    }
    Ok(Items::from_vec(copy))
}
