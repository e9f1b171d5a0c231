//! The rows that are in lists, numbered: by slots, and those of one slot in block order.
//! Each is a span of its own, so what is made of them doesn't grow with the blocks that they are in.

ghost use Rattle.std.specs.Prelude.{◌+◌, ◌*◌, ◌<◌, ◌≤◌, IfOk, length};
ghost use Rattle.cqa_model.specs.declared.limits.TheConstants.{MOST_ROWS};
ghost use Rattle.join_access.specs.Listing.{names_of};
ghost use Rattle.list_search.specs.Quotients.{AreNumberedTo};

use crate::singles::add_places;
use cqa_value::{Items, NoMemory};
use row_lists::RowLists;
use row_lists::numbering::Numbering;
use row_lists::span::Span;
use std::alloc::Global;

/// Numbers the rows of one slot that are in lists.
fn add_slot(lists: &RowLists<'_>, slot: usize, numbered: &mut Vec<Span>) -> Result<(), NoMemory>
    requires there { slot < length lists.now.frame.now.tables }
    requires few { length numbered.old.items ≤ MOST_ROWS * slot }
    requires so_far { AreNumberedTo lists.now.frame.now.tables (names_of lists.now.lists.now) slot numbered.old.items }
    ensures few { IfOk result (λ done. length numbered.new.items ≤ MOST_ROWS * (slot + 1)) }
    ensures rows { IfOk result (λ done. AreNumberedTo lists.now.frame.now.tables (names_of lists.now.lists.now) (slot + 1) numbered.new.items) }
{
    add_places(slot as u32, lists.column(slot), numbered)
}

/// The rows that are in lists, each once, by spans of one row.
///
/// # Errors
///
/// `NoMemory` where memory is refused.
pub fn listed_rows(alloc: Global, lists: &RowLists<'_>) -> Result<Numbering, NoMemory>
    ensures { IfOk result (λ numbered. AreNumberedTo lists.now.frame.now.tables (names_of lists.now.lists.now) (length lists.now.frame.now.tables) numbered.spans) }
{
    let mut numbered = Vec::new(alloc);
    for slot in 0..lists.frame.tables.len() {
        add_slot(lists, slot, &mut numbered)?;
    }
    let vars = numbered.len() as u32;
    Ok(Numbering {
        spans: Items::from_vec(numbered),
        vars,
    })
}
