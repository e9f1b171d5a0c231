//! The classes of the rows that are in lists: rows of a table that agree in the columns that are spoken of have one.

ghost use Rattle.std.specs.Prelude.{◌≡◌, ◌+◌, ◌<◌, IfOk, length};
ghost use Rattle.join_access.specs.Listing.{names_of};
ghost use Rattle.row_lists.specs.Spans.{variables_of_spans};
ghost use Rattle.list_search.specs.Quotients.{AreClassedTo, AreNumberedTo};

use crate::classing::{Classed, mark_rows, put_by_columns};
use crate::listed_rows::listed_rows;
use crate::scope::Scope;
use cqa_value::NoMemory;
use row_lists::RowLists;
use row_lists::numbering::Numbering;
use std::alloc::Global;

/// Gives the rows of one slot that are in lists their classes.
fn mark_slot(
    alloc: Global,
    scope: &Scope,
    numbered: &Numbering,
    lists: &RowLists<'_>,
    slot: usize,
    classes: &mut [Option<u32>],
) -> Result<(), NoMemory>
    requires frame { lists.now.frame.now ≡ scope.now.frame }
    requires there { slot < length lists.now.frame.now.tables }
    requires rows { AreNumberedTo lists.now.frame.now.tables (names_of lists.now.lists.now) (length lists.now.frame.now.tables) numbered.now.spans }
    requires so_far { AreClassedTo lists.now.db.now lists.now.frame.now.tables scope.now.columns (variables_of_spans numbered.now.spans) (names_of lists.now.lists.now) slot classes.old }
    ensures { IfOk result (λ done. AreClassedTo lists.now.db.now lists.now.frame.now.tables scope.now.columns (variables_of_spans numbered.now.spans) (names_of lists.now.lists.now) (slot + 1) classes.new) }
{
    let columns = scope.columns_at(slot);
    let rows = lists.db.rows(lists.table(slot));
    let mut places = Vec::from_slice(alloc, lists.column(slot))?;
    put_by_columns(&rows, columns, &mut places);
    mark_rows(
        &rows,
        columns,
        numbered,
        slot as u32,
        places.as_slice(),
        classes,
    );
    Ok(())
}

/// The class of each numbered row, which are those in lists: the number of one that agrees with it.
fn classes_of(
    alloc: Global,
    scope: &Scope,
    numbered: &Numbering,
    lists: &RowLists<'_>,
) -> Result<Vec<Option<u32>>, NoMemory>
    requires frame { lists.now.frame.now ≡ scope.now.frame }
    requires rows { AreNumberedTo lists.now.frame.now.tables (names_of lists.now.lists.now) (length lists.now.frame.now.tables) numbered.now.spans }
    ensures { IfOk result (λ classes. AreClassedTo lists.now.db.now lists.now.frame.now.tables scope.now.columns (variables_of_spans numbered.now.spans) (names_of lists.now.lists.now) (length lists.now.frame.now.tables) classes.items) }
{
    let mut classes = Vec::new(alloc);
    classes.resize(numbered.spans.len(), None)?;
    for slot in 0..lists.frame.tables.len() {
        mark_slot(alloc, scope, numbered, lists, slot, classes.as_mut_slice())?;
    }
    Ok(classes)
}

/// The rows that are in lists, with their numbers and classes.
///
/// # Errors
///
/// `NoMemory` where memory is refused.
pub fn listed_classes(
    alloc: Global,
    scope: &Scope,
    lists: &RowLists<'_>,
) -> Result<Classed, NoMemory>
    requires { lists.now.frame.now ≡ scope.now.frame }
    ensures rows { IfOk result (λ classed. AreNumberedTo lists.now.frame.now.tables (names_of lists.now.lists.now) (length lists.now.frame.now.tables) classed.rows.spans) }
    ensures classes { IfOk result (λ classed. AreClassedTo lists.now.db.now lists.now.frame.now.tables scope.now.columns (variables_of_spans classed.rows.spans) (names_of lists.now.lists.now) (length lists.now.frame.now.tables) classed.classes.items) }
{
    let rows = listed_rows(alloc, lists)?;
    let classes = classes_of(alloc, scope, &rows, lists)?;
    Ok(Classed { rows, classes })
}
