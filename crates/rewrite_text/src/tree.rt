//! The blocks of the tree that a plan makes, written one after another.

ghost use Rattle.std.specs.Prelude.{◌∷◌, IfErr, OnOk, length};
ghost use Rattle.cqa_model.specs.Plan.{PlanHolds};
ghost use Rattle.plan_rows.specs.Over.{query_of, stored_rows, rows_before};
ghost use Rattle.plan_rows.specs.Taking.{placed};
ghost use Rattle.plan_rows.specs.Underway.{IsRight};
ghost use Rattle.fo_plan.specs.Holding.{AllHoldWith, PlanRestHolds};
ghost use Rattle.rewrite_text.specs.Drafts.{IsBetween, RefusesBy};
ghost use Rattle.rewrite_text.specs.Growing.{AddsTree, AddsTreesUnder, AreLongTreesUnder, IsLongTree};

use crate::draft::{Draft, TooLong};
use crate::statements::add_block;
use cqa_value::{Fail, Row};
use fo_plan::first_block;
use plan_rows::{Memo, Rest, Step, Taken};
use row_pieces::Rows;

/// Adds the blocks of the tree for the rest of a plan that holds.
#[cycle(nodes)]
pub fn add_nodes<'x>(
    rest: &Rest<'x>,
    row: &'x Row,
    memo: &mut Memo,
    draft: &mut Draft,
) -> Result<(), Fail<TooLong>>
    requires memo { IsRight rest.now.course.now memo.old }
    requires holds { PlanRestHolds rest.now row.now }
    requires between { IsBetween draft.old }
    ensures memo { IsRight rest.now.course.now memo.new }
    ensures made { OnOk result (AddsTree rest.now.course.now.setting.bound.now.db.now rest.now.course.now.setting.bound.now.query.now row.now (placed rest.now.taken.now) rest.now.plan.now draft.old draft.new) }
    ensures over { IfErr result (RefusesBy (IsLongTree rest.now.course.now.setting.bound.now.db.now rest.now.course.now.setting.bound.now.query.now row.now (placed rest.now.taken.now) rest.now.plan.now (length draft.old.out.items))) }
{
    let plan = rest.plan;
    match plan {
        [] => Ok(()),
        [atom, others @ ..] => {
            let step = Step {
                course: rest.course,
                taken: rest.taken,
                atom: *atom,
                rest: others,
            };
            add_tree(&step, row, memo, draft)
        }
    }
}

/// The same of a tree whose first block is of the step's atom.
#[cycle(nodes)]
fn add_tree<'x>(
    step: &Step<'x, '_>,
    row: &'x Row,
    memo: &mut Memo,
    draft: &mut Draft,
) -> Result<(), Fail<TooLong>>
    requires memo { IsRight step.now.course.now memo.old }
    requires holds { PlanHolds (query_of step.now) (stored_rows step.now) row.now (rows_before step.now) (step.now.atom ∷ step.now.rest.now) }
    requires between { IsBetween draft.old }
    ensures memo { IsRight step.now.course.now memo.new }
    ensures made { OnOk result (AddsTree step.now.course.now.setting.bound.now.db.now (query_of step.now) row.now (rows_before step.now) (step.now.atom ∷ step.now.rest.now) draft.old draft.new) }
    ensures over { IfErr result (RefusesBy (IsLongTree step.now.course.now.setting.bound.now.db.now (query_of step.now) row.now (rows_before step.now) (step.now.atom ∷ step.now.rest.now) (length draft.old.out.items))) }
{
    let course = step.course;
    let bound = course.setting.bound;
    match first_block(step, row, memo) {
        Some(block) => {
            add_block(bound, step.atom, &block, draft)?;
            add_under(step, row, &block, memo, draft)
        }
        None => Ok(()),
    }
}

/// The same of the trees under the rows of a block.
#[cycle(nodes)]
fn add_under<'x>(
    step: &Step<'x, '_>,
    row: &'x Row,
    block: &Rows<'_>,
    memo: &mut Memo,
    draft: &mut Draft,
) -> Result<(), Fail<TooLong>>
    requires memo { IsRight step.now.course.now memo.old }
    requires hold { AllHoldWith step.now row.now block.now }
    requires between { IsBetween draft.old }
    ensures memo { IsRight step.now.course.now memo.new }
    ensures made { OnOk result (AddsTreesUnder step.now.course.now.setting.bound.now.db.now (query_of step.now) row.now (rows_before step.now) step.now.atom step.now.rest.now block.now draft.old draft.new) }
    ensures over { IfErr result (RefusesBy (AreLongTreesUnder step.now.course.now.setting.bound.now.db.now (query_of step.now) row.now (rows_before step.now) step.now.atom step.now.rest.now block.now (length draft.old.out.items))) }
{
    for at in 0..block.len() {
        let y = block.get(at);
        let more = Taken::Before(step.atom, &*y, &*step.taken);
        let rest = Rest {
            course: &*step.course,
            taken: &more,
            plan: &*step.rest,
        };
        add_nodes(&rest, &*row, memo, draft)?;
    }
    Ok(())
}
