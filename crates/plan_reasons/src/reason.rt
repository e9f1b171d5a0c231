//! The reason of a row of a query that has a plan: a block, or a repair.

ghost use Rattle.std.specs.Prelude.{◌≡◌, ◌≤◌, IfOk, IfSome, IsNone, length};
ghost use Rattle.cqa_model.specs.Database.{key_of};
ghost use Rattle.cqa_model.specs.Certain.{IsCertain};
ghost use Rattle.cqa_value.specs.declared.row.TheConstants.{MOST_COLUMNS};
ghost use Rattle.cqa_model.specs.Plan.{IsPlanOf, IsExact};
ghost use Rattle.join_access.specs.Spots.{ArePaths};
ghost use Rattle.plan_rows.specs.Links.{AreWays};
ghost use Rattle.plan_reasons.specs.Reasons.{IsPlanReason};

use cqa_model::Plan;
use cqa_value::{Items, NOTHING, NoMemory, Row};
use fo_plan::{block_of, paths_of, ways_of};
use join_access::RowIndex;
use plan_repair::mend;
use plan_rows::Link;
use repair_back::{Reason, chosen};
use std::alloc::Global;
use table_blocks::Bound;

/// The values of a row in some columns.
fn values_of(alloc: Global, key: &[u32], row: &Row) -> Result<Row, NoMemory>
    requires { length key.now ≤ MOST_COLUMNS }
    ensures { IfOk result (λ values. values ≡ key_of key.now row.now) }
{
    let mut values = Row::new(alloc);
    for place in key {
        values.push(row.at_or(*place, &NOTHING).copy(alloc)?)?;
    }
    Ok(values)
}

/// The block by which a row is certain, if it is.
fn by_block(
    alloc: Global,
    bound: &Bound<'_>,
    plan: &Plan,
    row: &Row,
    paths: &[Option<RowIndex<'_>>],
    ways: &[Items<Link<'_>>],
) -> Result<Option<Reason>, NoMemory>
    requires plan { IsPlanOf bound.now.query.now plan.now.order }
    requires exact { IsExact bound.now.query.now plan.now.order }
    requires long { length row.now ≡ length bound.now.query.now.answer }
    requires paths { ArePaths bound.now.query.now bound.now.db.now paths.now }
    requires ways { AreWays bound.now.query.now bound.now.db.now plan.now.order ways.now }
    ensures found { IfOk result (λ found. IfSome found (IsPlanReason bound.now.db.now bound.now.query.now row.now)) }
    ensures none { IfOk result (λ found. IsNone found → IsCertain bound.now.db.now bound.now.query.now row.now → ⊥) }
{
    let Some(block) = block_of(alloc, bound, plan, row, paths, ways) else {
        return Ok(None);
    };
    let first = plan.order.as_slice()[0];
    let table = bound.table_of(first);
    let key = values_of(alloc, bound.key_of(first), block.get(0))?;
    Ok(Some(Reason::ByBlock { table, key }))
}

/// A repair that shows that a row isn't certain.
fn rejected(
    alloc: Global,
    bound: &Bound<'_>,
    plan: &Plan,
    row: &Row,
    paths: &[Option<RowIndex<'_>>],
    ways: &[Items<Link<'_>>],
) -> Result<Reason, NoMemory>
    requires plan { IsPlanOf bound.now.query.now plan.now.order }
    requires long { length row.now ≡ length bound.now.query.now.answer }
    requires paths { ArePaths bound.now.query.now bound.now.db.now paths.now }
    requires ways { AreWays bound.now.query.now bound.now.db.now plan.now.order ways.now }
    requires uncertain { IsCertain bound.now.db.now bound.now.query.now row.now → ⊥ }
    ensures { IfOk result (IsPlanReason bound.now.db.now bound.now.query.now row.now) }
{
    let Some(repair) = mend(alloc, bound, plan, row, paths, ways)? else {
        unreachable!()
    };
    let names = chosen(alloc, bound.db, repair)?;
    Ok(Reason::Rejected(names))
}

/// The reason of a row, by indexes of the query's tables and by links of its atoms.
fn by_ways(
    alloc: Global,
    bound: &Bound<'_>,
    plan: &Plan,
    row: &Row,
    paths: &[Option<RowIndex<'_>>],
    ways: &[Items<Link<'_>>],
) -> Result<Reason, NoMemory>
    requires plan { IsPlanOf bound.now.query.now plan.now.order }
    requires exact { IsExact bound.now.query.now plan.now.order }
    requires long { length row.now ≡ length bound.now.query.now.answer }
    requires paths { ArePaths bound.now.query.now bound.now.db.now paths.now }
    requires ways { AreWays bound.now.query.now bound.now.db.now plan.now.order ways.now }
    ensures { IfOk result (IsPlanReason bound.now.db.now bound.now.query.now row.now) }
{
    match by_block(alloc, bound, plan, row, paths, ways)? {
        Some(reason) => Ok(reason),
        None => rejected(alloc, bound, plan, row, paths, ways),
    }
}

/// The reason of a row, by indexes of the query's tables.
fn by_paths(
    alloc: Global,
    bound: &Bound<'_>,
    plan: &Plan,
    row: &Row,
    paths: &[Option<RowIndex<'_>>],
) -> Result<Reason, NoMemory>
    requires plan { IsPlanOf bound.now.query.now plan.now.order }
    requires exact { IsExact bound.now.query.now plan.now.order }
    requires long { length row.now ≡ length bound.now.query.now.answer }
    requires paths { ArePaths bound.now.query.now bound.now.db.now paths.now }
    ensures { IfOk result (IsPlanReason bound.now.db.now bound.now.query.now row.now) }
{
    let ways = ways_of(alloc, bound, plan, bound.query.answer.as_slice())?;
    let reason = by_ways(alloc, bound, plan, row, paths, ways.as_slice());
    drop(ways);
    reason
}

/// The reason of a row of a query that has a plan.
///
/// # Errors
///
/// `NoMemory` where memory is refused.
pub fn reason_by_plan(
    alloc: Global,
    bound: &Bound<'_>,
    plan: &Plan,
    row: &Row,
) -> Result<Reason, NoMemory>
    requires plan { IsPlanOf bound.now.query.now plan.now.order }
    requires exact { IsExact bound.now.query.now plan.now.order }
    requires long { length row.now ≡ length bound.now.query.now.answer }
    ensures { IfOk result (IsPlanReason bound.now.db.now bound.now.query.now row.now) }
{
    let paths = paths_of(alloc, bound, plan, bound.query.answer.as_slice())?;
    let reason = by_paths(alloc, bound, plan, row, paths.as_slice());
    drop(paths);
    reason
}
