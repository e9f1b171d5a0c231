//! Whether a plan holds, atom by atom: some block all of whose rows fit, and for each of them the rest.

ghost use Rattle.std.specs.Prelude.{◌↔◌, ◌∷◌, IsTrue, MatchOption};
ghost use Rattle.cqa_model.specs.Query.{atom_key, rows_of};
ghost use Rattle.cqa_model.specs.OneTable.{SomeBlockFits};
ghost use Rattle.cqa_model.specs.Plan.{HoldsOver, PlanHolds};
ghost use Rattle.plan_rows.specs.Left.{AreQueryAtoms};
ghost use Rattle.plan_rows.specs.Over.{query_of, stored_rows, rows_before};
ghost use Rattle.plan_rows.specs.Underway.{IsMemoKey, IsRight};
ghost use Rattle.fo_plan.specs.Enough.{AreSought, IsFirstBlockOf};
ghost use Rattle.fo_plan.specs.Holding.{PlanRestHolds, PlanHoldsWith, AllHoldWith};

use crate::enough::Blocks;
use cqa_model::Plan;
use cqa_value::Row;
use plan_rows::{Candidates, Course, JoinedColumns, Memo, Rest, Setting, Step, Taken, fits};
use row_pieces::Rows;
use std::alloc::Global;
use table_blocks::Bound;

/// Whether the rest of a plan holds, by what is remembered of it where deciding has taken long.
#[cycle(holds)]
pub(crate) fn holds_with<'x>(rest: &Rest<'x>, row: &'x Row, memo: &mut Memo) -> bool
    requires { IsRight rest.now.course.now memo.old }
    ensures holds { IsTrue result ↔ PlanRestHolds rest.now row.now }
    ensures memo { IsRight rest.now.course.now memo.new }
{
    let plan = rest.plan;
    match plan {
        [] => true,
        [atom, others @ ..] => {
            let step = Step {
                course: rest.course,
                taken: rest.taken,
                atom: *atom,
                rest: others,
            };
            match memo.key(rest, row) {
                Some(key) => remembered(&step, row, key, memo),
                None => some_block(&step, row, memo),
            }
        }
    }
}

/// Whether the rest of a plan holds, which is looked up by its key, or decided and remembered under it.
#[cycle(holds)]
fn remembered<'x>(step: &Step<'x, '_>, row: &'x Row, key: Row, memo: &mut Memo) -> bool
    requires memo { IsRight step.now.course.now memo.old }
    requires key { IsMemoKey step.now.course.now (rows_before step.now) (step.now.atom ∷ step.now.rest.now) row.now key }
    ensures holds { IsTrue result ↔ PlanHolds (query_of step.now) (stored_rows step.now) row.now (rows_before step.now) (step.now.atom ∷ step.now.rest.now) }
    ensures memo { IsRight step.now.course.now memo.new }
{
    if let Some(held) = memo.told(&key) {
        drop(key);
        return held;
    }
    let held = some_block(step, row, memo);
    memo.keep(key, held);
    held
}

/// Whether all rows of some block of an atom's table hold.
#[cycle(holds)]
fn some_block<'x>(step: &Step<'x, '_>, row: &'x Row, memo: &mut Memo) -> bool
    requires { IsRight step.now.course.now memo.old }
    ensures holds { IsTrue result ↔ SomeBlockFits (atom_key (query_of step.now) step.now.atom) (rows_of (query_of step.now) (stored_rows step.now) step.now.atom) (PlanHoldsWith step.now row.now) }
    ensures memo { IsRight step.now.course.now memo.new }
{
    let blocks = Blocks::new(step, Some(row));
    let held = first_of(step, row, &blocks, memo).is_some();
    drop(blocks);
    held
}

/// The first of these blocks all of whose rows hold.
#[cycle(holds)]
pub(crate) fn first_of<'x, 'a>(
    step: &Step<'x, 'a>,
    row: &'x Row,
    blocks: &Blocks<'x, 'a>,
    memo: &mut Memo,
) -> Option<Rows<'a>>
    requires sought { AreSought blocks.now (PlanHoldsWith step.now row.now) }
    requires memo { IsRight step.now.course.now memo.old }
    ensures first { MatchOption result (SomeBlockFits blocks.now.key.now blocks.now.rows (PlanHoldsWith step.now row.now) → ⊥) (IsFirstBlockOf blocks.now.key.now blocks.now.rows (PlanHoldsWith step.now row.now)) }
    ensures memo { IsRight step.now.course.now memo.new }
{
    let mut spot = blocks.start();
    while let Some(block) = blocks.next(&mut spot) {
        if all_hold(step, row, &block, memo) {
            return Some(block);
        }
    }
    None
}

/// Whether all of these rows hold.
#[cycle(holds)]
pub(crate) fn all_hold<'x>(
    step: &Step<'x, '_>,
    row: &'x Row,
    block: &Rows<'_>,
    memo: &mut Memo,
) -> bool
    requires { IsRight step.now.course.now memo.old }
    ensures holds { IsTrue result ↔ AllHoldWith step.now row.now block.now }
    ensures memo { IsRight step.now.course.now memo.new }
{
    for y in block.again() {
        if !row_holds(step, row, y, memo) {
            return false;
        }
    }
    true
}

/// Whether a row fits, and the rest of the plan holds with it.
#[cycle(holds)]
fn row_holds<'x>(step: &Step<'x, '_>, row: &'x Row, y: &Row, memo: &mut Memo) -> bool
    requires { IsRight step.now.course.now memo.old }
    ensures holds { IsTrue result ↔ PlanHoldsWith step.now row.now y.now }
    ensures memo { IsRight step.now.course.now memo.new }
{
    memo.turn();
    if !fits(&step.look(), row, y) {
        return false;
    }
    let more = Taken::Before(step.atom, &*y, &*step.taken);
    let rest = Rest {
        course: &*step.course,
        taken: &more,
        plan: &*step.rest,
    };
    holds_with(&rest, &*row, memo)
}

/// Whether a plan holds for a row: the plan's first atom has a block all of whose rows fit the row, and for each of them
/// the rest of the plan holds with that row taken (Koutris and Wijsen, ACM TODS 2017). It takes no memory: rows are found
/// by the first key values that are known, and nothing is remembered.
pub fn holds<'x>(alloc: Global, bound: &'x Bound<'x>, plan: &'x Plan, row: &'x Row) -> bool
    requires { AreQueryAtoms bound.now.query.now plan.now.order }
    ensures { IsTrue result ↔ HoldsOver bound.now.db.now bound.now.query.now row.now plan.now.order }
{
    let order = plan.order.as_slice();
    let setting = Setting {
        alloc,
        bound,
        paths: &[],
        joined: JoinedColumns::new(bound),
    };
    let course = Course {
        setting,
        order,
        shared: &[],
        ways: &[],
    };
    let none = Taken::Nothing;
    let rest = Rest {
        course: &course,
        taken: &none,
        plan: order,
    };
    let mut memo = Memo::over(&course.setting, Candidates::One);
    let held = holds_with(&rest, row, &mut memo);
    drop(memo);
    held
}
