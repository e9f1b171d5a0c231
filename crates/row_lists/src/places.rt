//! The places that the rows of one table have in lists, in order.
//! A place that several lists share stands there once.

ghost use Rattle.std.specs.Prelude.{◌↔◌, ◌⊎◌, ℕ, Contains, IfOk};
ghost use Rattle.join_access.specs.Listing.{names_of};
ghost use Rattle.row_lists.specs.Frames.{AreTablePlaces};
ghost use Rattle.row_lists.specs.Lists.{name};

use cqa_model::RowId;
use cqa_value::NoMemory;
use join_access::{Witness, put_in_order};
use std::alloc::Global;

/// Adds the places of the rows of a table in one list.
fn add_places(names: &[RowId], table: u32, places: &mut Vec<u32>) -> Result<(), NoMemory>
    ensures { IfOk result (λ done. (p : ℕ) → Contains places.new.items p ↔ (Contains places.old.items p ⊎ Contains names.now (name table p))) }
{
    for id in names {
        if id.table == table {
            places.push(id.place)?;
        }
    }
    Ok(())
}

/// The places of the rows of a table in lists, in order, each once.
///
/// # Errors
///
/// `NoMemory` where memory is refused.
pub(crate) fn column(alloc: Global, lists: &[Witness], table: u32) -> Result<Vec<u32>, NoMemory>
    ensures { IfOk result (λ places. AreTablePlaces (names_of lists.now) table places.items) }
{
    let mut places = Vec::new(alloc);
    for list in lists {
        add_places(list.rows.as_slice(), table, &mut places)?;
    }
    put_in_order(&mut places);
    Ok(places)
}
