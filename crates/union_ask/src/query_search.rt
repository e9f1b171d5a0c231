//! The certain rows of a query that has no plan, or the disputed ones, by search: those of a union of one part, over the query's
//! tables in the order of its atoms.

ghost use Rattle.std.specs.Prelude.{IfOk};
ghost use Rattle.union_ask.specs.QuerySearching.{IsSearched};

use crate::search::rows_of_parts;
use cqa_value::NoMemory;
use part_search::{BoundParts, Searched};
use repair_clauses::query_frame;
use row_answers::Side;
use std::alloc::Global;
use std::slice;
use table_blocks::Bound;

/// The rows of a side of a query, each possible row decided by its formula, by searches of at most `budget`
/// conflicts each, ascending.
///
/// # Errors
///
/// `NoMemory` where memory is refused.
pub fn rows_by_search(
    alloc: Global,
    bound: &Bound<'_>,
    side: Side,
    budget: u32,
) -> Result<Searched, NoMemory>
    ensures { IfOk result (IsSearched bound.now.query.now bound.now.db.now side budget) }
{
    let frame = query_frame(alloc, bound)?;
    let parts = BoundParts::new(bound.db, slice::from_ref(bound.query));
    rows_of_parts(alloc, &parts, frame, side, budget)
}
