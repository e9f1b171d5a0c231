//! Whether a repair can keep out of each list by rows in no list alone.
//! A row of a list whose block has a row in no list is loose, since a repair can keep that row in its place.

ghost use Rattle.std.specs.Prelude.{◌≡◌, ◌<◌, IfOk, IsTrue, length};
ghost use Rattle.join_access.specs.Listing.{names_of};
ghost use Rattle.row_lists.specs.Frames.{IsInFrame};
ghost use Rattle.row_lists.specs.Lists.{HasFree, IsForced};
ghost use Rattle.list_search.specs.Avoiding.{AreLooseOf, AreLooseMarks, HasLoose, HaveLoose};
ghost use Rattle.list_search.specs.Quotients.{AreNamesWithin, columns_at};

use crate::scope::slot_of;
use cqa_model::RowId;
use cqa_value::{Items, NoMemory};
use row_lists::RowLists;
use row_lists::loosening::{is_loose, loose_places};
use std::alloc::Global;

/// Which places of a slot have loose rows.
fn loose_of(alloc: Global, lists: &RowLists<'_>, slot: usize) -> Result<Vec<bool>, NoMemory>
    requires { slot < length lists.now.frame.now.tables }
    ensures size { IfOk result (λ loose. length loose.items ≡ length (columns_at lists.now.columns slot)) }
    ensures loose { IfOk result (λ loose. AreLooseOf lists.now.db.now lists.now.frame.now.tables lists.now.columns (names_of lists.now.lists.now) slot loose.items) }
{
    let table = lists.table(slot);
    let rows = lists.db.rows(table);
    let key = lists.db.schema(table).key.as_slice();
    loose_places(alloc, &rows, key, lists.column(slot))
}

/// Which places have loose rows, slot by slot.
fn loose_rows(alloc: Global, lists: &RowLists<'_>) -> Result<Items<Items<bool>>, NoMemory>
    ensures { IfOk result (AreLooseMarks lists.now.db.now lists.now.frame.now.tables lists.now.columns (names_of lists.now.lists.now) (length lists.now.frame.now.tables)) }
{
    let mut loose = Vec::with_capacity(alloc, lists.frame.tables.len())?;
    for slot in 0..lists.frame.tables.len() {
        loose.push(Items::from_vec(loose_of(alloc, lists, slot)?))?;
    }
    Ok(Items::from_vec(loose))
}

/// Whether the row of a name is loose.
fn is_loose_row(lists: &RowLists<'_>, loose: &[Items<bool>], id: &RowId) -> bool
    requires marks { AreLooseMarks lists.now.db.now lists.now.frame.now.tables lists.now.columns (names_of lists.now.lists.now) (length lists.now.frame.now.tables) loose.now }
    requires within { IsInFrame lists.now.frame.now.tables lists.now.frame.now.slots id.now.table }
    ensures { IsTrue result → HasFree lists.now.db.now (names_of lists.now.lists.now) id.now }
{
    let slot = slot_of(lists.frame, id.table) as usize;
    is_loose(lists.column(slot), loose[slot].as_slice(), id.place)
}

/// Whether a list has a loose row.
fn has_loose(lists: &RowLists<'_>, loose: &[Items<bool>], names: &[RowId]) -> bool
    requires marks { AreLooseMarks lists.now.db.now lists.now.frame.now.tables lists.now.columns (names_of lists.now.lists.now) (length lists.now.frame.now.tables) loose.now }
    requires within { AreNamesWithin lists.now.frame.now.tables lists.now.frame.now.slots names.now }
    ensures { IsTrue result → HasLoose lists.now.db.now (names_of lists.now.lists.now) names.now }
{
    for id in names {
        if is_loose_row(lists, loose, id) {
            return true;
        }
    }
    false
}

/// Whether each list has a loose row.
fn have_loose(lists: &RowLists<'_>, loose: &[Items<bool>]) -> bool
    requires { AreLooseMarks lists.now.db.now lists.now.frame.now.tables lists.now.columns (names_of lists.now.lists.now) (length lists.now.frame.now.tables) loose.now }
    ensures { IsTrue result → HaveLoose lists.now.db.now (names_of lists.now.lists.now) (names_of lists.now.lists.now) }
{
    for list in lists.lists {
        if !has_loose(lists, loose, list.rows.as_slice()) {
            return false;
        }
    }
    true
}

/// Whether each list has a row whose block has a row that is in no list. A repair that keeps such rows keeps no list whole;
/// where the answer is no, every repair may keep one or not.
///
/// It looks at the rows of the lists, and at one row on each side of those that stand together, so its time doesn't grow with
/// the blocks.
///
/// # Errors
///
/// `NoMemory` where memory is refused.
pub fn are_avoidable(alloc: Global, lists: &RowLists<'_>) -> Result<bool, NoMemory>
    ensures { IfOk result (λ avoidable. IsTrue avoidable → IsForced lists.now.db.now (names_of lists.now.lists.now) → ⊥) }
{
    let loose = loose_rows(alloc, lists)?;
    let avoidable = have_loose(lists, loose.as_slice());
    drop(loose);
    Ok(avoidable)
}
