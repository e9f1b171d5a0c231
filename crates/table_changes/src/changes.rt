//! The changes, each behind its checks.
ghost use Rattle.std.specs.Prelude.{◌≡◌, ◌<◌, ◌^◌, ◌⊎◌, ◌++◌, [], None, IsTrue, true, false, OnOk, OnErr, IfOk, IfErr, length};
ghost use Rattle.std.specs.List.Sorted.{IsStrictlySortedBy};
ghost use Rattle.cqa_model.specs.Database.{AreConsistent, block_cmp};
ghost use Rattle.cqa_value.specs.declared.memory.Fail.TheVariants.{Refused};
ghost use Rattle.refusals.specs.declared.refusal.Refusal.TheVariants.{KeyBroken as Broken};
ghost use Rattle.refusals.specs.Refusal.{first_of, IsRefusedAs, Checked};
ghost use Rattle.refusals.specs.Kinds.{rows_fault};
ghost use Rattle.table_blocks.specs.Keys.{IsKey};
ghost use Rattle.table_blocks.specs.Tables.{rows_at, key_at, mark_at, kinds_at, with_mark, Rekeys, AreValidRows, AreValidTables};
ghost use Rattle.table_changes.specs.Changes.{strict_key_fault, insert_fault, strict_fault, rekey_fault, Inserts};

use crate::check::rows_fault_of;
use crate::fresh::fresh_rows;
use crate::taken::check_taken;
use cqa_model::MOST_ROWS;
use cqa_value::{Fail, Items, Row};
use refusals::{LimitKind, Refusal};
use row_pieces::Pieces;
use std::alloc::Global;
use table_blocks::{Clash, Database};

/// The places of a table's key columns.
pub fn key_of(db: &Database, table: u32) -> &[u32]
    requires { table < length db.now }
    ensures { result.now ≡ key_at db.now table }
{
    db.schema(table).key.as_slice()
}

/// Refuses rows that a table can't hold since it is strict.
fn check_keys(alloc: Global, db: &Database, table: u32, rows: &[Row]) -> Result<(), Fail<Refusal>>
    requires there { table < length db.now }
    requires few { length rows.now < 2 ^ 32 }
    ensures { Checked result (strict_key_fault db.now table rows.now) (λ _. IsTrue (mark_at db.now table) → AreConsistent (key_at db.now table) (rows_at db.now table ++ rows.now)) }
{
    if !db.is_strict(table) {
        return Ok(());
    }
    check_taken(alloc, &db.rows(table), rows, key_of(db, table))
}

/// Refuses rows that a table can't hold: the first that doesn't fit its columns, or else since it is strict.
fn check_rows(alloc: Global, db: &Database, table: u32, rows: &[Row]) -> Result<(), Fail<Refusal>>
    requires there { table < length db.now }
    requires few { length rows.now < 2 ^ 32 }
    ensures checked { Checked result (first_of (rows_fault (kinds_at db.now table) 1 rows.now) (strict_key_fault db.now table rows.now)) (λ _. IsTrue (mark_at db.now table) → AreConsistent (key_at db.now table) (rows_at db.now table ++ rows.now)) }
    ensures values { OnOk result (AreValidRows rows.now) }
{
    match rows_fault_of(db.schema(table), rows) {
        Some(fault) => Err(Fail::Refused(fault)),
        None => check_keys(alloc, db, table, rows),
    }
}

/// Puts the rows that aren't there yet into a table, and gives their number.
///
/// # Errors
///
/// `NoMemory` where memory is refused; else the first fault of a row; `KeyTaken` where the table is strict and a row
/// shares its key with a different one that is stored or stands before it; or `Limit` where all tables together would
/// have more than 1,000,000 rows. Nothing has changed then.
pub fn insert(db: &mut Database, table: u32, rows: Items<Row>) -> Result<u32, Fail<Refusal>>
    requires there { table < length db.old }
    requires few { length rows < 2 ^ 32 }
    ensures inserted { IfOk result (λ count. Inserts db.old table rows db.new count) }
    ensures valid { OnOk result (insert_fault db.old table rows ≡ None) }
    ensures refused { IfErr result (λ e. IsRefusedAs e (insert_fault db.old table rows)) }
    ensures err { OnErr result (db.new ≡ db.old) }
    ensures stored { AreValidTables db.new }
{
    let _tables = db.count();
    let rows = rows.into_vec();
    check_rows(*rows.allocator(), db, table, rows.as_slice())?;
    let fresh = fresh_rows(rows, &db.rows(table), key_of(db, table))?;
    let count = fresh.rows.len();
    if count > MOST_ROWS - db.row_total() as usize {
        drop(fresh);
        let what = LimitKind::Rows;
        return Err(Fail::Refused(Refusal::Limit { what }));
    }
    db.add(table, fresh)?;
    Ok(count as u32)
}

/// Gives a table without rows its rows, where there is room for them, and gives their number.
fn fill(db: &mut Database, table: u32, rows: Pieces) -> Result<u32, Fail<Refusal>>
    requires there { table < length db.old }
    requires empty { rows_at db.old table ≡ [] }
    requires lax { mark_at db.old table ≡ false }
    requires ascending { IsStrictlySortedBy (block_cmp (key_at db.old table)) rows }
    requires fits { rows_fault (kinds_at db.old table) 1 rows ≡ None }
    requires values { AreValidRows rows }
    ensures inserted { IfOk result (λ count. Inserts db.old table rows db.new count) }
    ensures valid { OnOk result (insert_fault db.old table rows ≡ None) }
    ensures refused { IfErr result (λ e. IsRefusedAs e (insert_fault db.old table rows)) }
    ensures err { OnErr result (db.new ≡ db.old) }
    ensures stored { AreValidTables db.new }
{
    let _tables = db.count();
    let count = rows.rows().len();
    if count > MOST_ROWS - db.row_total() as usize {
        drop(rows);
        let what = LimitKind::Rows;
        return Err(Fail::Refused(Refusal::Limit { what }));
    }
    db.fill(table, rows);
    Ok(count as u32)
}

/// Puts rows that aren't there yet into a table, and gives their number: what `insert` does with the sorted rows and the rest
/// behind them, of which either has none. Where the table has no rows and isn't strict, it takes the pieces of sorted rows.
///
/// # Errors
///
/// `NoMemory`, `KeyTaken` or `Limit`, as `insert` has them; nothing has changed then.
pub fn load(
    db: &mut Database,
    table: u32,
    sorted: Pieces,
    rest: Vec<Row>,
) -> Result<u32, Fail<Refusal>>
    requires there { table < length db.old }
    requires few { length (sorted ++ rest.items) < 2 ^ 32 }
    requires fits { rows_fault (kinds_at db.old table) 1 (sorted ++ rest.items) ≡ None }
    requires values { AreValidRows (sorted ++ rest.items) }
    requires ascending { IsStrictlySortedBy (block_cmp (key_at db.old table)) sorted }
    requires either { (sorted ≡ []) ⊎ (rest.items ≡ []) }
    ensures inserted { IfOk result (λ count. Inserts db.old table (sorted ++ rest.items) db.new count) }
    ensures valid { OnOk result (insert_fault db.old table (sorted ++ rest.items) ≡ None) }
    ensures refused { IfErr result (λ e. IsRefusedAs e (insert_fault db.old table (sorted ++ rest.items))) }
    ensures err { OnErr result (db.new ≡ db.old) }
    ensures stored { AreValidTables db.new }
{
    let _tables = db.count();
    if !rest.is_empty() {
        drop(sorted);
        return insert(db, table, Items::from_vec(rest));
    }
    drop(rest);
    if db.rows(table).is_empty() && !db.is_strict(table) {
        return fill(db, table, sorted);
    }
    let rows = sorted.into_vec()?;
    insert(db, table, Items::from_vec(rows))
}

/// The refusal of two rows that share a key of which there should be one.
fn broken(clash: Clash) -> Fail<Refusal>
    ensures { result ≡ Refused (Broken clash.first clash.second) }
{
    let Clash { first, second } = clash;
    Fail::Refused(Refusal::KeyBroken { first, second })
}

/// Makes a table strict: it holds no two rows of one key from then on.
///
/// # Errors
///
/// `NoMemory` where memory is refused; else `KeyBroken` with the first two rows of the first block of more than one row.
/// Nothing has changed then.
pub fn set_strict(db: &mut Database, table: u32) -> Result<(), Fail<Refusal>>
    requires { table < length db.old }
    ensures checked { Checked result (strict_fault db.old table) (λ _. db.new ≡ with_mark db.old table true) }
    ensures err { OnErr result (db.new ≡ db.old) }
    ensures stored { AreValidTables db.new }
{
    match db.make_strict(table)? {
        None => Ok(()),
        Some(clash) => Err(broken(clash)),
    }
}

/// Gives a table another key: its rows stay, and stand in the block order of that key.
///
/// # Errors
///
/// `NoMemory` where memory is refused; else, where the table is strict, `KeyBroken` with the first two rows of the first
/// block of more than one row that it would have. Nothing has changed then.
pub fn set_key(db: &mut Database, table: u32, key: Items<u32>) -> Result<(), Fail<Refusal>>
    requires there { table < length db.old }
    requires key { IsKey (length (kinds_at db.old table)) key }
    ensures checked { Checked result (rekey_fault db.old table key) (λ _. Rekeys db.old table key db.new) }
    ensures err { OnErr result (db.new ≡ db.old) }
    ensures stored { AreValidTables db.new }
{
    match db.rekey(table, key)? {
        None => Ok(()),
        Some(clash) => Err(broken(clash)),
    }
}
