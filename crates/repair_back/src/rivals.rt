//! Which rows of a repair were chosen: those whose blocks have another row.

ghost use Rattle.std.specs.Prelude.{◌≡◌, ◌<◌, ◌+◌, ◌↔◌, IsTrue, IfOk, length, [], slice_index_or};
ghost use Rattle.std.specs.List.Sorted.{IsStrictlySortedBy};
ghost use Rattle.cqa_model.specs.Database.{stored, block_cmp};
ghost use Rattle.cqa_model.specs.Repairs.{SharesKey};
ghost use Rattle.repair_back.specs.Results.{is_contested, is_contested_in, contested_of};
ghost use Rattle.table_blocks.specs.Tables.{AreStored};

use crate::repair::Repair;
use cqa_model::RowId;
use cqa_value::{Items, NoMemory};
use row_blocks::goes_on;
use row_pieces::Rows;
use std::alloc::Global;
use table_blocks::Database;

/// Whether there is a row behind the one at a place that shares its key.
fn has_next(rows: &Rows<'_>, key: &[u32], place: usize) -> bool
    requires { place < length rows.now }
    ensures { IsTrue result ↔ ((place + 1 < length rows.now) × SharesKey key.now (slice_index_or rows.now place []) (slice_index_or rows.now (place + 1) [])) }
{
    let count = rows.len();
    place + 1 < count && goes_on(rows, key, place, place + 1)
}

/// Whether another row is of the block of the row at a place.
fn has_rival(rows: &Rows<'_>, key: &[u32], place: usize) -> bool
    requires order { IsStrictlySortedBy (block_cmp key.now) rows.now }
    requires there { place < length rows.now }
    ensures { result ≡ is_contested key.now rows.now (slice_index_or rows.now place []) }
{
    if has_next(rows, key, place) {
        return true;
    }
    if place == 0 {
        return false;
    }
    goes_on(rows, key, place, place - 1)
}

/// Whether another row is of the block of the row with a name.
fn is_rivalled(db: &Database, name: RowId) -> bool
    requires table { name.table < length db.now }
    requires place { name.place < length (slice_index_or (stored db.now) name.table []) }
    ensures { result ≡ is_contested_in db.now name }
{
    let key = db.schema(name.table).key.as_slice();
    has_rival(&db.rows(name.table), key, name.place as usize)
}

/// The names of the rows that a repair keeps of blocks of two or more rows, in its order.
///
/// # Errors
///
/// `NoMemory` where memory is refused.
pub fn contested(alloc: Global, db: &Database, repair: &Repair) -> Result<Items<RowId>, NoMemory>
    requires { AreStored db.now repair.now.kept }
    ensures { IfOk result (λ names. names ≡ contested_of db.now repair.now.kept) }
{
    let mut names = Items::new(alloc);
    for name in repair.kept.as_slice() {
        if !is_rivalled(db, *name) {
            continue;
        }
        names.push(*name)?;
    }
    Ok(names)
}

/// A repair by the rows that it had to choose: the names of those in blocks of two or more rows.
///
/// # Errors
///
/// `NoMemory` where memory is refused.
pub fn chosen(alloc: Global, db: &Database, repair: Repair) -> Result<Items<RowId>, NoMemory>
    requires { AreStored db.now repair.kept }
    ensures names { IfOk result (λ names. names ≡ contested_of db.now repair.kept) }
    ensures stored { IfOk result (AreStored db.now) }
{
    let names = contested(alloc, db, &repair);
    drop(repair);
    names
}
