//! What is kept of some tables, at the start.

ghost use Rattle.std.specs.Prelude.{◌≡◌, ◌<◌, ℕ, IfOk, OnOk, Contains, length, []};
ghost use Rattle.cqa_model.specs.Blocks.{IsPick};
ghost use Rattle.repair_back.specs.Flags.{IsFlagged, flags_at, AreTablesOf, AreLong, AreBlank, AreTableFlags};
ghost use Rattle.table_blocks.specs.Tables.{rows_at, key_at};

use crate::choice::Choice;
use cqa_value::NoMemory;
use std::alloc::Global;
use table_blocks::Database;

/// How many rows of a table count: all where it is one of these, and else none.
fn count_in(db: &Database, tables: &[u32], table: u32) -> usize
    requires { table < length db.now }
    ensures { Contains tables.now table → result ≡ length (rows_at db.now table) }
{
    if tables.contains(&table) {
        db.rows(table).len()
    } else {
        0
    }
}

/// Adds flags for each table of a database, none of them set.
fn add_blank(
    alloc: Global,
    db: &Database,
    tables: &[u32],
    kept: &mut Vec<Choice>,
) -> Result<(), NoMemory>
    requires { kept.old.items ≡ [] }
    ensures { OnOk result (AreBlank db.now tables.now kept.new.items) }
{
    for table in 0..db.count() {
        kept.push(Choice::blank(alloc, count_in(db, tables, table))?)?;
    }
    Ok(())
}

/// A flag for each row of some tables, none of them set.
///
/// # Errors
///
/// `NoMemory` where memory is refused.
pub fn blank(alloc: Global, db: &Database, tables: &[u32]) -> Result<Vec<Choice>, NoMemory>
    ensures { IfOk result (λ kept. AreBlank db.now tables.now kept.items) }
{
    let mut kept = Vec::new(alloc);
    match add_blank(alloc, db, tables, &mut kept) {
        Ok(()) => Ok(kept),
        Err(fault) => {
            drop(kept);
            Err(fault)
        }
    }
}

/// Keeps of each block of some tables the first row whose flag is set, or else the first row.
pub fn settle_all(db: &Database, tables: &[u32], kept: &mut [Choice])
    requires tables { AreTablesOf db.now tables.now }
    requires long { AreLong db.now tables.now kept.old }
    ensures chosen { AreTableFlags db.now tables.now kept.new }
    ensures picks { (t : ℕ) → Contains tables.now t → (p : ℕ) → IsFlagged (flags_at kept.new t) p → IsPick (key_at db.now t) (rows_at db.now t) (IsFlagged (flags_at kept.old t)) p }
{
    for table in tables {
        let key = db.schema(*table).key.as_slice();
        kept[*table as usize].settle(&db.rows(*table), key);
    }
}
