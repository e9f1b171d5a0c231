//! The block by which a plan holds.

ghost use Rattle.std.specs.Prelude.{ℕ, ◌<◌, MatchOption, Contains, length};
ghost use Rattle.cqa_model.specs.OneTable.{SomeBlockFits};
ghost use Rattle.cqa_model.specs.Query.{atom_key, rows_of};
ghost use Rattle.cqa_model.specs.Plan.{HoldsOver};
ghost use Rattle.join_access.specs.Spots.{ArePaths};
ghost use Rattle.plan_rows.specs.Left.{AreQueryAtoms};
ghost use Rattle.plan_rows.specs.Links.{AreWays};
ghost use Rattle.plan_rows.specs.Over.{query_of, stored_rows};
ghost use Rattle.plan_rows.specs.Underway.{IsRight};
ghost use Rattle.fo_plan.specs.Holding.{PlanHoldsWith};
ghost use Rattle.fo_plan.specs.FirstBlock.{IsFirstBlock, IsFirstWith};

use crate::enough::Blocks;
use crate::holding::first_of;
use cqa_model::Plan;
use cqa_value::{Items, Row};
use join_access::RowIndex;
use plan_rows::{
    Candidates, Course, JoinedColumns, Link, Memo, Setting, Step, Taken, grouped_along,
    shared_or_none,
};
use row_pieces::Rows;
use std::alloc::Global;
use table_blocks::Bound;

/// The first block, in block order, of the next atom's table all of whose rows fit and have the rest of the plan hold with
/// them; `None` exactly where there is none. What is found of rests of the plan is remembered.
pub fn first_block<'x, 'a>(step: &Step<'x, 'a>, row: &'x Row, memo: &mut Memo) -> Option<Rows<'a>>
    requires { IsRight step.now.course.now memo.old }
    ensures memo { IsRight step.now.course.now memo.new }
    ensures block { MatchOption result (SomeBlockFits (atom_key (query_of step.now) step.now.atom) (rows_of (query_of step.now) (stored_rows step.now) step.now.atom) (PlanHoldsWith step.now row.now) → ⊥) (λ block. SomeBlockFits (atom_key (query_of step.now) step.now.atom) (rows_of (query_of step.now) (stored_rows step.now) step.now.atom) (PlanHoldsWith step.now row.now) × IsFirstWith (atom_key (query_of step.now) step.now.atom) (rows_of (query_of step.now) (stored_rows step.now) step.now.atom) (PlanHoldsWith step.now row.now) block) }
{
    let blocks = Blocks::new(step, Some(row));
    let found = first_of(step, row, &blocks, memo);
    drop(blocks);
    found
}

/// The first block of the first atom of a plan by which it holds.
fn found_block<'x, 'a>(course: &'x Course<'x, 'a>, row: &'x Row) -> Option<Rows<'a>>
    requires { (F : ℕ) → F < length course.now.setting.bound.now.query.now.atoms → Contains course.now.order.now F }
    ensures { MatchOption result (HoldsOver course.now.setting.bound.now.db.now course.now.setting.bound.now.query.now row.now course.now.order.now → ⊥) (λ block. HoldsOver course.now.setting.bound.now.db.now course.now.setting.bound.now.query.now row.now course.now.order.now × IsFirstBlock course.now.setting.bound.now.db.now course.now.setting.bound.now.query.now row.now course.now.order.now block) }
{
    let plan = course.order;
    match plan {
        [] => None,
        [atom, rest @ ..] => {
            let none = Taken::Nothing;
            let step = Step {
                course: &*course,
                taken: &none,
                atom: *atom,
                rest,
            };
            let mut memo = Memo::over(&course.setting, Candidates::One);
            let found = first_block(&step, &*row, &mut memo);
            drop(memo);
            found
        }
    }
}

/// The first block of the first atom of an order by which it holds.
fn block_along<'a>(
    setting: Setting<'_, 'a>,
    order: &[u32],
    row: &Row,
    ways: &[Items<Link<'_>>],
) -> Option<Rows<'a>>
    requires order { AreQueryAtoms setting.bound.now.query.now order.now }
    requires all { (F : ℕ) → F < length setting.bound.now.query.now.atoms → Contains order.now F }
    requires ways { AreWays setting.bound.now.query.now setting.bound.now.db.now order.now ways.now }
    ensures { MatchOption result (HoldsOver setting.entry.bound.now.db.now setting.entry.bound.now.query.now row.now order.now → ⊥) (λ block. HoldsOver setting.entry.bound.now.db.now setting.entry.bound.now.query.now row.now order.now × IsFirstBlock setting.entry.bound.now.db.now setting.entry.bound.now.query.now row.now order.now block) }
{
    let shared = shared_or_none(&setting, order);
    let course = Course {
        setting,
        order,
        shared: shared.as_slice(),
        ways,
    };
    found_block(&course, row)
}

/// The first block, in block order, of the plan's first atom by which the plan holds for a row: all its rows fit the
/// row, and for each of them the rest of the plan holds with that row taken (Koutris and Wijsen, ACM TODS 2017). `None`
/// exactly where the plan doesn't hold. Rows are found by the given indexes, of each atom's table one or none, and by the
/// given links of later atoms. The atoms behind the first are gone over group by group, as joins link them, and once many
/// rows were looked at, what was decided of rests is remembered, as far as there is memory for it.
pub fn block_of<'a>(
    alloc: Global,
    bound: &Bound<'a>,
    plan: &Plan,
    row: &Row,
    paths: &[Option<RowIndex<'_>>],
    ways: &[Items<Link<'_>>],
) -> Option<Rows<'a>>
    requires plan { AreQueryAtoms bound.now.query.now plan.now.order }
    requires all { (F : ℕ) → F < length bound.now.query.now.atoms → Contains plan.now.order F }
    requires paths { ArePaths bound.now.query.now bound.now.db.now paths.now }
    requires ways { AreWays bound.now.query.now bound.now.db.now plan.now.order ways.now }
    ensures { MatchOption result (HoldsOver bound.now.db.now bound.now.query.now row.now plan.now.order → ⊥) (λ block. HoldsOver bound.now.db.now bound.now.query.now row.now plan.now.order × IsFirstBlock bound.now.db.now bound.now.query.now row.now plan.now.order block) }
{
    let order = plan.order.as_slice();
    let setting = Setting {
        alloc,
        bound: &*bound,
        paths: &*paths,
        joined: JoinedColumns::new(bound),
    };
    match grouped_along(&setting, order, ways) {
        Some(grouped) => block_along(setting, grouped.as_slice(), row, ways),
        None => block_along(setting, order, row, ways),
    }
}
