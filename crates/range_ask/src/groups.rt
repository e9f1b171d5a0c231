//! Ranges by groups: both ends of an aggregate for each value of a column, over the rows that have it.

ghost use Rattle.std.specs.Prelude.{◌≡◌, ◌⊎◌, ◌<◌, ◌≤◌, ◌++◌, ◌∷◌, suc, true, false, List, [], Contains, IfOk, length};
ghost use Rattle.std.specs.BTreeMap.{keys};
ghost use Rattle.std.specs.List.{AllZip};
ghost use Rattle.std.specs.List.Sorted.{IsStrictlySortedBy};
ghost use Rattle.cqa_value.specs.Values.{value_cmp};
ghost use Rattle.cqa_model.specs.declared.limits.TheConstants.{MOST_ROWS};
ghost use Rattle.cqa_value.specs.declared.value.Value.{Value as Cell};
ghost use Rattle.range_ask.specs.Ranges.{cell, meets};
ghost use Rattle.range_ask.specs.Picks.{IsInBlocks};
ghost use Rattle.range_ask.specs.Groups.{AreGroups};
ghost use Rattle.range_ask.specs.Tallying.{AreTallied, HasMet, HasRowMore, IsEnded};

use crate::tally::{Tally, both_ends, more};
use crate::total::Turn;
use crate::worth::meets;
use aggregate_range::{End, Goal};
use cqa_value::{Items, NOTHING, NoMemory, Row, Value};
use row_cursor::BlockCursor;
use row_pieces::Rows;
use std::alloc::Global;
use std::collections::BTreeMap;
use table_blocks::{ColumnTest, Database};

/// A group of a range: the rows that have a value in a column, with both ends of the aggregate over them.
#[derive(Drop)]
pub struct Group {
    pub value: Value,
    pub least: End,
    pub greatest: End,
}

/// What is asked of groups: an aggregate, the tests that rows meet, and the column whose values make the groups.
#[derive(Clone, Copy)]
pub struct Ask<'a> {
    pub goal: &'a Goal,
    pub tests: &'a [ColumnTest],
    pub col: u32,
}

/// A row more of the group of a value.
fn add_row<'a>(
    alloc: Global,
    goal: &Goal,
    turn: Turn,
    row: &'a Row,
    value: &Value,
    groups: &mut BTreeMap<Value, Tally<'a>>,
) -> Result<(), NoMemory>
    ensures { IfOk result (λ done. HasRowMore goal.now turn row.now value.now groups.old groups.new) }
{
    if let Some(tally) = groups.get_mut(value) {
        *tally = more(goal, turn, row, Some(*tally));
        return Ok(());
    }
    groups.insert(value.copy(alloc)?, more(goal, turn, row, None))?;
    Ok(())
}

/// Whether all rows of a block meet the tests and have the value of the first one.
fn is_sure(ask: &Ask<'_>, first: &Row, block: &Rows<'_>) -> bool
    ensures yes { result ≡ true → (y : List Cell) → Contains block.now y → (meets ask.now.tests.now y ≡ true) × (cell y ask.now.col ≡ cell first.now ask.now.col) }
    ensures no { result ≡ false → (y : List Cell) × Contains block.now y × ((meets ask.now.tests.now y ≡ false) ⊎ (cell y ask.now.col ≡ cell first.now ask.now.col → ⊥)) }
{
    for at in 0..block.len() {
        let row = block.get(at);
        if !meets(ask.tests, row) || !row.agrees(ask.col, first, ask.col) {
            return false;
        }
    }
    true
}

/// A row more of its group, if it meets the tests; all rows of a sure block do.
fn add_met<'a>(
    alloc: Global,
    ask: &Ask<'_>,
    turn: Turn,
    row: &'a Row,
    groups: &mut BTreeMap<Value, Tally<'a>>,
) -> Result<(), NoMemory>
    ensures { IfOk result (λ done. (turn.sure ≡ true → meets ask.now.tests.now row.now ≡ true) → HasMet ask.now.goal.now ask.now.tests.now ask.now.col turn row.now groups.old groups.new) }
{
    if !turn.sure && !meets(ask.tests, row) {
        return Ok(());
    }
    add_row(
        alloc,
        ask.goal,
        turn,
        row,
        row.at_or(ask.col, &NOTHING),
        groups,
    )
}

/// The rows of a block more, each of its group.
fn add_block<'a>(
    alloc: Global,
    ask: &Ask<'_>,
    number: u32,
    block: &Rows<'a>,
    groups: &mut BTreeMap<Value, Tally<'a>>,
) -> Result<(), NoMemory>
    requires { 0 < length block.now }
    ensures { IfOk result (λ done. (front : List (List (List Cell))) → number ≡ suc (length front) → AreTallied ask.now.goal.now ask.now.tests.now ask.now.col front groups.old → AreTallied ask.now.goal.now ask.now.tests.now ask.now.col (front ++ block.now ∷ []) groups.new) }
{
    let sure = is_sure(ask, block.get(0), block);
    let turn = Turn { number, sure };
    for at in 0..block.len() {
        add_met(alloc, ask, turn, block.get(at), groups)?;
    }
    Ok(())
}

/// All rows of a table that meet the tests, each of its group.
fn add_table<'a>(
    alloc: Global,
    db: &'a Database,
    table: u32,
    ask: &Ask<'_>,
    groups: &mut BTreeMap<Value, Tally<'a>>,
) -> Result<(), NoMemory>
    requires there { table < length db.now }
    requires none { groups.old.entries ≡ [] }
    ensures { IfOk result (λ done. (blocks : List (List (List Cell))) × IsInBlocks db.now table blocks × (length blocks ≤ MOST_ROWS) × AreTallied ask.now.goal.now ask.now.tests.now ask.now.col blocks groups.new) }
{
    let mut blocks = BlockCursor::over(db.rows(table), db.schema(table).key.as_slice());
    let mut number = 0;
    while let Some(block) = blocks.next() {
        number += 1;
        add_block(alloc, ask, number, &block, groups)?;
    }
    Ok(())
}

/// A group with both ends.
fn group_of(alloc: Global, goal: &Goal, value: &Value, tally: Tally<'_>) -> Result<Group, NoMemory>
    ensures { IfOk result (IsEnded goal.now value.now tally.entry) }
{
    let (least, greatest) = both_ends(alloc, goal, tally)?;
    Ok(Group {
        value: value.copy(alloc)?,
        least,
        greatest,
    })
}

/// The groups with both ends.
fn gather(
    alloc: Global,
    goal: &Goal,
    groups: &BTreeMap<Value, Tally<'_>>,
    list: &mut Items<Group>,
) -> Result<(), NoMemory>
    requires { list.old ≡ [] }
    ensures ended { IfOk result (λ done. AllZip (λ entry group. IsEnded goal.now entry.0 entry.1 group) groups.now.entries list.new) }
    ensures ordered { IsStrictlySortedBy value_cmp (keys groups.now) }
{
    for (value, tally) in groups {
        list.push(group_of(alloc, goal, value, *tally)?)?;
    }
    Ok(())
}

/// The groups of a table, and then both ends of each.
fn fill<'a>(
    alloc: Global,
    db: &'a Database,
    table: u32,
    ask: &Ask<'_>,
    groups: &mut BTreeMap<Value, Tally<'a>>,
    list: &mut Items<Group>,
) -> Result<(), NoMemory>
    requires there { table < length db.now }
    requires none { groups.old.entries ≡ [] }
    requires unlisted { list.old ≡ [] }
    ensures { IfOk result (λ done. AreGroups db.now table ask.now.goal.now ask.now.tests.now ask.now.col list.new) }
{
    add_table(alloc, db, table, ask, groups)?;
    gather(alloc, ask.goal, groups, list)
}

/// The groups of a range: for each value that a row which meets the tests has in a column, both ends of the aggregate over the rows
/// that have it, by ascending values. One walk over the blocks; it is refused by nothing but want of memory.
///
/// # Errors
///
/// `NoMemory` where memory is refused.
pub fn groups_of(
    alloc: Global,
    db: &Database,
    table: u32,
    goal: &Goal,
    tests: &[ColumnTest],
    col: u32,
) -> Result<Items<Group>, NoMemory>
    requires { table < length db.now }
    ensures { IfOk result (λ groups. AreGroups db.now table goal.now tests.now col groups) }
{
    let mut groups = BTreeMap::new(alloc);
    let mut list = Items::new(alloc);
    let ask = Ask { goal, tests, col };
    let done = fill(alloc, db, table, &ask, &mut groups, &mut list);
    drop(groups);
    done?;
    Ok(list)
}
