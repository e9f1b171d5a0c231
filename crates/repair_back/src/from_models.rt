//! Repairs from the models of formulas.

ghost use Rattle.std.specs.Prelude.{◌≡◌, ◌<◌, ◌⊎◌, ◌↔◌, ℕ, [], IfOk, length, slice_index_or, Contains};
ghost use Rattle.cqa_model.specs.declared.query.RowId.{RowId as Name};
ghost use Rattle.repair_back.specs.Flags.{IsFlagged, AreTablesOf, AreBlank};
ghost use Rattle.repair_back.specs.Results.{IsTrueName, IsRepairOf, IsRepairOver, ArePicks, AreTablePicks};
ghost use Rattle.table_blocks.specs.Tables.{AreStored};

use crate::atoms::tables_of;
use crate::choice::Choice;
use crate::kept::{blank, settle_all};
use crate::repair::{Repair, named};
use cqa_model::RowId;
use cqa_value::NoMemory;
use std::alloc::Global;
use table_blocks::{Bound, Database};

/// Sets the flags of the rows that are listed with `true`.
fn mark(kept: &mut [Choice], listed: &[RowId], model: &[bool])
    requires long { length listed.now ≡ length model.now }
    requires there { (name : Name) → Contains listed.now name → name.table < length kept.old }
    ensures size { length kept.new ≡ length kept.old }
    ensures long { (t : ℕ) → length (slice_index_or kept.new t []) ≡ length (slice_index_or kept.old t []) }
    ensures is { (t p : ℕ) → p < length (slice_index_or kept.old t []) → IsFlagged (slice_index_or kept.new t []) p ↔ (IsFlagged (slice_index_or kept.old t []) p ⊎ IsTrueName listed.now model.now (record { table = t; place = p })) }
{
    for at in 0..listed.len() {
        if !model[at] {
            continue;
        }
        let name = listed[at];
        kept[name.table as usize].set(name.place as usize);
    }
}

/// The same, where no flag is set yet.
fn picked(
    alloc: Global,
    db: &Database,
    tables: &[u32],
    listed: &[RowId],
    model: &[bool],
    kept: &mut [Choice],
) -> Result<Repair, NoMemory>
    requires tables { AreTablesOf db.now tables.now }
    requires long { length listed.now ≡ length model.now }
    requires there { AreStored db.now listed.now }
    requires blank { AreBlank db.now tables.now kept.old }
    ensures repair { IfOk result (λ repair. IsRepairOver db.now tables.now repair.kept) }
    ensures picks { IfOk result (λ repair. AreTablePicks db.now tables.now listed.now model.now repair.kept) }
    ensures stored { IfOk result (λ repair. AreStored db.now repair.kept) }
{
    mark(kept, listed, model);
    settle_all(db, tables, kept);
    named(alloc, db, tables, kept)
}

/// The repair of some tables that a model gives: of each block the first row that is listed with `true`, or else the first
/// row, by the tables as they come and then in block order.
///
/// # Errors
///
/// `NoMemory` where memory is refused.
pub fn tables_from_model(
    alloc: Global,
    db: &Database,
    tables: &[u32],
    listed: &[RowId],
    model: &[bool],
) -> Result<Repair, NoMemory>
    requires tables { AreTablesOf db.now tables.now }
    requires long { length listed.now ≡ length model.now }
    requires there { AreStored db.now listed.now }
    ensures repair { IfOk result (λ repair. IsRepairOver db.now tables.now repair.kept) }
    ensures picks { IfOk result (λ repair. AreTablePicks db.now tables.now listed.now model.now repair.kept) }
    ensures stored { IfOk result (λ repair. AreStored db.now repair.kept) }
{
    let mut kept = blank(alloc, db, tables)?;
    let found = picked(alloc, db, tables, listed, model, kept.as_mut_slice());
    drop(kept);
    found
}

/// The repair that a model gives: of each block of the query's tables the first row that is listed with `true`, or else
/// the first row. Where the list is that of a formula's variables and the model satisfies it, the repair holds no
/// witness of the formula's row: a law, `union_ask::model_rejects` (Dixit and Kolaitis, SAT 2019).
///
/// # Errors
///
/// `NoMemory` where memory is refused.
pub fn from_model(
    alloc: Global,
    bound: &Bound<'_>,
    listed: &[RowId],
    model: &[bool],
) -> Result<Repair, NoMemory>
    requires long { length listed.now ≡ length model.now }
    requires there { AreStored bound.now.db.now listed.now }
    ensures repair { IfOk result (λ repair. IsRepairOf bound.now.query.now bound.now.db.now repair.kept) }
    ensures picks { IfOk result (λ repair. ArePicks bound.now.query.now bound.now.db.now listed.now model.now repair.kept) }
    ensures stored { IfOk result (λ repair. AreStored bound.now.db.now repair.kept) }
{
    let tables = tables_of(alloc, bound.query)?;
    let found = tables_from_model(alloc, bound.db, tables.as_slice(), listed, model);
    drop(tables);
    found
}
