//! Repairs as names of rows.

ghost use Rattle.std.specs.Prelude.{◌≡◌, ◌<◌, ◌≤◌, ◌++◌, IfOk, OnOk, length};
ghost use Rattle.repair_back.specs.Flags.{places_from, AreTablesOf, AreTableFlags};
ghost use Rattle.repair_back.specs.Results.{names_kept};
ghost use Rattle.table_blocks.specs.Tables.{names_in};

use crate::choice::Choice;
use cqa_model::{MOST_ROWS, RowId};
use cqa_value::{Items, NoMemory};
use std::alloc::Global;
use table_blocks::Database;

/// One row of each block of each of some tables, by these tables and then in block order.
#[derive(Debug, Drop)]
pub struct Repair {
    pub kept: Items<RowId>,
}

/// Adds the names of the rows whose flags are set.
fn add_names(
    table: u32,
    count: usize,
    choice: &Choice,
    names: &mut Vec<RowId>,
) -> Result<(), NoMemory>
    requires few { count ≤ MOST_ROWS }
    requires size { length choice.now ≡ count }
    ensures { OnOk result (names.new.items ≡ names.old.items ++ names_in table (places_from 0 choice.now)) }
{
    for place in 0..count {
        if !choice.has(place) {
            continue;
        }
        names.push(RowId {
            table,
            place: place as u32,
        })?;
    }
    Ok(())
}

/// Adds the names of the rows that are kept of some tables.
fn add_all(
    db: &Database,
    tables: &[u32],
    kept: &[Choice],
    names: &mut Vec<RowId>,
) -> Result<(), NoMemory>
    requires tables { AreTablesOf db.now tables.now }
    requires chosen { AreTableFlags db.now tables.now kept.now }
    ensures { OnOk result (names.new.items ≡ names.old.items ++ names_kept tables.now kept.now) }
{
    for table in tables {
        let count = db.rows(*table).len();
        add_names(*table, count, &kept[*table as usize], names)?;
    }
    Ok(())
}

/// The names of the rows that are kept of some tables.
///
/// # Errors
///
/// `NoMemory` where memory is refused.
pub fn named(
    alloc: Global,
    db: &Database,
    tables: &[u32],
    kept: &[Choice],
) -> Result<Repair, NoMemory>
    requires tables { AreTablesOf db.now tables.now }
    requires chosen { AreTableFlags db.now tables.now kept.now }
    ensures { IfOk result (λ repair. repair.kept ≡ names_kept tables.now kept.now) }
{
    let mut names = Vec::new(alloc);
    add_all(db, tables, kept, &mut names)?;
    Ok(Repair {
        kept: Items::from_vec(names),
    })
}
