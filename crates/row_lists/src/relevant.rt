//! The relevant blocks of lists, slot by slot, from the places of their rows.
//! Their rows are numbered as they come: by slots, and those of one slot in block order.

ghost use Rattle.std.specs.Prelude.{◌+◌, ◌*◌, ◌++◌, ◌<◌, ◌≤◌, List, IfOk, length};
ghost use Rattle.cqa_model.specs.declared.limits.TheConstants.{MOST_ROWS};
ghost use Rattle.join_access.specs.Listing.{names_of};
ghost use Rattle.row_lists.specs.declared.span.Span.{Span as Run};
ghost use Rattle.row_lists.specs.Encodings.{AreBlocksOf, AreListSpansTo};

use crate::lists_over::RowLists;
use crate::numbering::Numbering;
use crate::run::{Spans, runs};
use cqa_value::{Items, NoMemory};
use std::alloc::Global;

/// The relevant blocks of one slot; their rows are numbered from `base` on.
fn runs_of(alloc: Global, lists: &RowLists<'_>, slot: usize, base: u32) -> Result<Spans, NoMemory>
    requires there { slot < length lists.now.frame.now.tables }
    requires small { base ≤ MOST_ROWS * slot }
    ensures more { IfOk result (λ more. (spans : List Run) → AreListSpansTo lists.now.db.now lists.now.frame.now.tables (names_of lists.now.lists.now) slot base spans →
        AreListSpansTo lists.now.db.now lists.now.frame.now.tables (names_of lists.now.lists.now) (slot + 1) more.vars (spans ++ more.list)) }
    ensures small { IfOk result (λ more. more.vars ≤ MOST_ROWS * (slot + 1)) }
{
    let table = lists.table(slot);
    let rows = lists.db.rows(table);
    let key = lists.db.schema(table).key.as_slice();
    runs(alloc, &rows, key, slot as u32, base, lists.column(slot))
}

/// The blocks that have a row in one of the lists, with their rows numbered.
///
/// # Errors
///
/// `NoMemory` where memory is refused.
pub fn relevant_blocks(alloc: Global, lists: &RowLists<'_>) -> Result<Numbering, NoMemory>
    ensures { IfOk result (AreBlocksOf lists.now.db.now lists.now.frame.now.tables (names_of lists.now.lists.now)) }
{
    let mut spans = Vec::new(alloc);
    let mut vars = 0;
    for slot in 0..lists.frame.tables.len() {
        let more = runs_of(alloc, lists, slot, vars)?;
        vars = more.vars;
        spans.append(&mut more.list.into_vec())?;
    }
    Ok(Numbering {
        spans: Items::from_vec(spans),
        vars,
    })
}
