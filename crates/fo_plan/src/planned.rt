//! The certain rows of a query by an elimination order, all at once.

ghost use Rattle.std.specs.Prelude.{IfOk};
ghost use Rattle.cqa_model.specs.Certain.{IsCertainAnswer};
ghost use Rattle.cqa_model.specs.Plan.{IsEliminationOf, IsExact};
ghost use Rattle.join_access.specs.Spots.{ArePaths};

use crate::certain::answers;
use crate::paths::paths_of;
use crate::ways::ways_of;
use cqa_model::Plan;
use cqa_value::{Items, NoMemory, Row};
use join_access::RowIndex;
use std::alloc::Global;
use table_blocks::Bound;

/// The certain rows of a query by an elimination order, which is exact, and by indexes of the query's tables.
fn rows_by_paths(
    alloc: Global,
    bound: &Bound<'_>,
    plan: &Plan,
    paths: &[Option<RowIndex<'_>>],
) -> Result<Items<Row>, NoMemory>
    requires order { IsEliminationOf bound.now.query.now plan.now.order }
    requires exact { IsExact bound.now.query.now plan.now.order }
    requires paths { ArePaths bound.now.query.now bound.now.db.now paths.now }
    ensures { IfOk result (IsCertainAnswer bound.now.db.now bound.now.query.now) }
{
    let ways = ways_of(alloc, bound, plan, &[])?;
    let rows = answers(alloc, bound, plan, paths, ways.as_slice());
    drop(ways);
    rows
}

/// The certain rows of a query by an elimination order, which is exact, ascending and each once (Koutris and Wijsen, ACM TODS
/// 2017).
///
/// # Errors
///
/// `NoMemory` where memory is refused.
pub fn certain_by_plan(
    alloc: Global,
    bound: &Bound<'_>,
    plan: &Plan,
) -> Result<Items<Row>, NoMemory>
    requires order { IsEliminationOf bound.now.query.now plan.now.order }
    requires exact { IsExact bound.now.query.now plan.now.order }
    ensures { IfOk result (IsCertainAnswer bound.now.db.now bound.now.query.now) }
{
    let paths = paths_of(alloc, bound, plan, &[])?;
    let rows = rows_by_paths(alloc, bound, plan, paths.as_slice());
    drop(paths);
    rows
}
