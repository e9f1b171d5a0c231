//! The rows for which a plan holds, all at once: a plan is gone over with the answer columns as its outputs. The first
//! row of each block proposes rows, and the block's other rows test them.

ghost use Rattle.std.specs.Prelude.{◌≡◌, ◌<◌, ◌↔◌, IsTrue, Contains, List, OnOk, [], length, slice_index_or};
ghost use Rattle.cqa_value.specs.declared.value.Value.{Value as Cell};
ghost use Rattle.cqa_model.specs.OneTable.{SomeBlockFits};
ghost use Rattle.plan_rows.specs.Fitting.{Suits};
ghost use Rattle.plan_rows.specs.Left.{IsAnswerSettled};
ghost use Rattle.plan_rows.specs.Over.{query_of, stored_rows, rows_before};
ghost use Rattle.plan_rows.specs.Underway.{IsRight};
ghost use Rattle.fo_plan.specs.Enough.{AreSought};
ghost use Rattle.fo_plan.specs.Holding.{PlanHoldsWith, AllHoldWith};
ghost use Rattle.plan_rows.specs.Taking.{placed};
ghost use Rattle.fo_plan.specs.Noted.{StandsApart, AreRight};
ghost use Rattle.fo_plan.specs.Giving.{IsAnswerRow, BlockGives, IsAdded, RestHasAll, StepHasAll, RestGives, StepGives};

use crate::enough::Blocks;
use crate::holding::{all_hold, holds_with};
use crate::notes::Notes;
use cqa_value::{NoMemory, Row};
use plan_rows::{Memo, Rest, Step, Taken, answer_of, are_settled, suits};
use row_answers::Answers;
use row_pieces::Rows;

/// Whether all rows of a block fit the rows taken, but for a candidate.
fn all_suit(step: &Step<'_, '_>, block: &Rows<'_>) -> bool
    ensures { IsTrue result ↔ ((y : List Cell) → Contains block.now y → Suits (query_of step.now) (rows_before step.now) step.now.atom y) }
{
    let look = step.look();
    for y in block.again() {
        if !suits(&look, y) {
            return false;
        }
    }
    true
}

/// Adds a row if all of these rows of a block hold for it.
fn keep_one(
    step: &Step<'_, '_>,
    block: &Rows<'_>,
    row: Row,
    found: &mut Answers,
    memo: &mut Memo,
) -> Result<(), NoMemory>
    requires { IsRight step.now.course.now memo.old }
    ensures added { OnOk result (IsAdded (λ r. (r ≡ row) × AllHoldWith step.now r block.now) found.old found.new) }
    ensures memo { IsRight step.now.course.now memo.new }
{
    if all_hold(&*step, &row, block, memo) {
        found.put(row)?;
    } else {
        drop(row);
    }
    Ok(())
}

/// Adds those of the rows proposed for which all of these rows of a block hold.
fn keep_all(
    step: &Step<'_, '_>,
    block: &Rows<'_>,
    part: &mut Answers,
    found: &mut Answers,
    memo: &mut Memo,
) -> Result<(), NoMemory>
    requires { IsRight step.now.course.now memo.old }
    ensures added { OnOk result (IsAdded (λ r. Contains part.old r × AllHoldWith step.now r block.now) found.old found.new) }
    ensures memo { IsRight step.now.course.now memo.new }
{
    while let Some(row) = part.pop() {
        keep_one(step, block, row, found, memo)?;
    }
    Ok(())
}

/// Adds the answer of the rows taken if a rest of a plan holds that doesn't change it.
fn add_settled(rest: &Rest<'_>, found: &mut Answers, memo: &mut Memo) -> Result<(), NoMemory>
    requires all { RestHasAll rest.now }
    requires settled { IsAnswerSettled rest.now.course.now.setting.bound.now.query.now rest.now.plan.now }
    requires memo { IsRight rest.now.course.now memo.old }
    ensures added { OnOk result (IsAdded (RestGives rest.now) found.old found.new) }
    ensures memo { IsRight rest.now.course.now memo.new }
{
    let course = rest.course;
    let setting = &course.setting;
    let none = Row::new(setting.alloc);
    let held = holds_with(&*rest, &none, memo);
    drop(none);
    if held {
        found.put(answer_of(
            setting.alloc,
            rest.taken,
            setting.bound.query.answer.as_slice(),
        )?)?;
    }
    Ok(())
}

/// Whether no column of the rows taken is of a variable of the atoms that are left; false where no row is taken, or no lists
/// of shared columns were made.
fn stands_apart(rest: &Rest<'_>) -> bool
    ensures { IsTrue result → StandsApart rest.now.course.now (placed rest.now.taken.now) }
{
    let course = rest.course;
    let place = course.order.len() - rest.plan.len();
    if place >= course.shared.len() {
        return false;
    }
    place > 0 && course.shared[place].as_slice().is_empty()
}

/// Whether a rest of a plan shares nothing with the rows taken, and no such rest gave a row yet that has as many atoms.
fn may_be_barren(rest: &Rest<'_>, notes: &Notes) -> bool
    ensures { IsTrue result → StandsApart rest.now.course.now (placed rest.now.taken.now) }
{
    rest.plan.len() > notes.bears && stands_apart(rest)
}

/// Moves rows to others.
fn move_all(part: &mut Answers, found: &mut Answers) -> Result<(), NoMemory>
    ensures { OnOk result (IsAdded (Contains part.old) found.old found.new) }
{
    while let Some(row) = part.pop() {
        found.put(row)?;
    }
    Ok(())
}

/// Adds the rows that the rows taken and the rest of a plan give.
#[cycle(giving)]
pub(crate) fn add_given(
    rest: &Rest<'_>,
    found: &mut Answers,
    notes: &mut Notes,
) -> Result<(), NoMemory>
    requires all { RestHasAll rest.now }
    requires notes { AreRight rest.now.course.now notes.old }
    ensures added { OnOk result (IsAdded (RestGives rest.now) found.old found.new) }
    ensures notes { AreRight rest.now.course.now notes.new }
{
    let course = rest.course;
    let plan = rest.plan;
    if notes.give_none(plan.len()) {
        return Ok(());
    }
    if are_settled(course.setting.bound.query, plan) {
        return add_settled(rest, found, &mut notes.memo);
    }
    match plan {
        [] => unreachable!(),
        [atom, others @ ..] => {
            let step = Step {
                course: rest.course,
                taken: rest.taken,
                atom: *atom,
                rest: others,
            };
            if may_be_barren(rest, &*notes) {
                add_apart(&step, found, notes)
            } else {
                add_blocks(&step, found, notes)
            }
        }
    }
}

/// Adds the rows that an atom's table gives where nothing of the atoms that are left is shared with the rows taken, and notes
/// whether there are some.
#[cycle(giving)]
fn add_apart(step: &Step<'_, '_>, found: &mut Answers, notes: &mut Notes) -> Result<(), NoMemory>
    requires all { StepHasAll step.now }
    requires apart { StandsApart step.now.course.now (rows_before step.now) }
    requires notes { AreRight step.now.course.now notes.old }
    ensures added { OnOk result (IsAdded (StepGives step.now) found.old found.new) }
    ensures notes { AreRight step.now.course.now notes.new }
{
    let course = step.course;
    let mut part = Answers::new(course.setting.alloc);
    let added = add_or_note(step, &mut part, found, notes);
    drop(part);
    added
}

/// The same, by way of a list of what is given.
#[cycle(giving)]
fn add_or_note(
    step: &Step<'_, '_>,
    part: &mut Answers,
    found: &mut Answers,
    notes: &mut Notes,
) -> Result<(), NoMemory>
    requires all { StepHasAll step.now }
    requires apart { StandsApart step.now.course.now (rows_before step.now) }
    requires none { part.old ≡ [] }
    requires notes { AreRight step.now.course.now notes.old }
    ensures added { OnOk result (IsAdded (StepGives step.now) found.old found.new) }
    ensures notes { AreRight step.now.course.now notes.new }
{
    add_blocks(step, part, notes)?;
    if part.is_empty() {
        notes.barren = Some(step.rest.len() + 1);
        return Ok(());
    }
    notes.bears = step.rest.len() + 1;
    move_all(part, found)
}

/// Adds the rows that the blocks of an atom's table give.
#[cycle(giving)]
fn add_blocks(step: &Step<'_, '_>, found: &mut Answers, notes: &mut Notes) -> Result<(), NoMemory>
    requires all { StepHasAll step.now }
    requires notes { AreRight step.now.course.now notes.old }
    ensures added { OnOk result (IsAdded (StepGives step.now) found.old found.new) }
    ensures notes { AreRight step.now.course.now notes.new }
{
    let blocks = Blocks::new(step, None);
    let added = add_all_of(step, &blocks, found, notes);
    drop(blocks);
    added
}

/// Adds the rows that these blocks give.
#[cycle(giving)]
fn add_all_of(
    step: &Step<'_, '_>,
    blocks: &Blocks<'_, '_>,
    found: &mut Answers,
    notes: &mut Notes,
) -> Result<(), NoMemory>
    requires all { StepHasAll step.now }
    requires sought { (row : List Cell) → AreSought blocks.now (PlanHoldsWith step.now row) }
    requires notes { AreRight step.now.course.now notes.old }
    ensures added { OnOk result (IsAdded (λ row. IsAnswerRow (query_of step.now) (rows_before step.now) row × SomeBlockFits blocks.now.key.now blocks.now.rows (PlanHoldsWith step.now row)) found.old found.new) }
    ensures notes { AreRight step.now.course.now notes.new }
{
    let mut spot = blocks.start();
    while let Some(block) = blocks.next(&mut spot) {
        add_block(step, &block, found, notes)?;
    }
    Ok(())
}

/// Adds the rows that a block gives: the first of its rows proposes, and the others test.
#[cycle(giving)]
fn add_block(
    step: &Step<'_, '_>,
    block: &Rows<'_>,
    found: &mut Answers,
    notes: &mut Notes,
) -> Result<(), NoMemory>
    requires all { StepHasAll step.now }
    requires some { 0 < length block.now }
    requires notes { AreRight step.now.course.now notes.old }
    ensures added { OnOk result (IsAdded (BlockGives (query_of step.now) (stored_rows step.now) (rows_before step.now) step.now.atom step.now.rest.now block.now) found.old found.new) }
    ensures notes { AreRight step.now.course.now notes.new }
{
    if !all_suit(step, block) {
        return Ok(());
    }
    if block.len() == 1 {
        let more = Taken::Before(step.atom, block.get(0), &*step.taken);
        let rest = Rest {
            course: &*step.course,
            taken: &more,
            plan: &*step.rest,
        };
        return add_given(&rest, found, notes);
    }
    let course = step.course;
    let mut part = Answers::new(course.setting.alloc);
    let added = add_tested(step, block, &mut part, found, notes);
    drop(part);
    added
}

/// Adds the rows that a block of two or more rows gives, all of which fit. `part` is where they are tested.
#[cycle(giving)]
fn add_tested(
    step: &Step<'_, '_>,
    block: &Rows<'_>,
    part: &mut Answers,
    found: &mut Answers,
    notes: &mut Notes,
) -> Result<(), NoMemory>
    requires all { StepHasAll step.now }
    requires some { 0 < length block.now }
    requires first { Suits (query_of step.now) (rows_before step.now) step.now.atom (slice_index_or block.now 0 []) }
    requires none { part.old ≡ [] }
    requires notes { AreRight step.now.course.now notes.old }
    ensures added { OnOk result (IsAdded (BlockGives (query_of step.now) (stored_rows step.now) (rows_before step.now) step.now.atom step.now.rest.now block.now) found.old found.new) }
    ensures notes { AreRight step.now.course.now notes.new }
{
    let more = Taken::Before(step.atom, block.get(0), &*step.taken);
    let rest = Rest {
        course: &*step.course,
        taken: &more,
        plan: &*step.rest,
    };
    add_given(&rest, part, notes)?;
    let (_, others) = block.split_at(1);
    keep_all(step, &others, part, found, &mut notes.memo)
}
