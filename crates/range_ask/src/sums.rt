//! Both ends of a count or a sum, row by row: each row is read once, and each key compared with that of the row before.

ghost use Rattle.std.specs.Prelude.{◌≡◌, ◌+◌, ◌^◌, ◌<◌, ◌++◌, ◌∷◌, ◌+ℤ◌, pos, ℤ, [], IfOk, List, length};
ghost use Rattle.cqa_value.specs.declared.value.Value.{Value as Cell};
ghost use Rattle.cqa_model.specs.declared.limits.TheConstants.{MOST_ROWS};
ghost use Rattle.table_blocks.specs.Tables.{rows_at};
ghost use Rattle.range_ask.specs.Ranges.{meets};
ghost use Rattle.range_ask.specs.Picks.{IsInBlocks, worth};
ghost use Rattle.range_ask.specs.Finding.{added, row_in_block, AreBests, IsBestHigh, IsBestLow};
ghost use Rattle.range_ask.specs.Walking.{AreSides, IsNextBlock, IsWithinBlocks};

use crate::wide::note;
use crate::worth::worth;
use aggregate_range::Goal;
use cqa_value::NoMemory;
use row_blocks::same_key;
use std::alloc::Global;
use table_blocks::{ColumnTest, Database};

/// A row of a block by its place, and what it adds.
#[derive(Clone, Copy)]
pub struct Best {
    pub at: u32,
    pub worth: i64,
}

/// A block that is being read: the place of its first row, how many were read, and of those one that adds least and one that adds
/// most.
#[derive(Clone, Copy)]
pub struct Open {
    pub start: u32,
    pub read: u32,
    pub least: Best,
    pub most: Best,
}

/// What is kept for one end: the places of rows, and what they add up to.
#[derive(Drop)]
pub struct Side {
    pub places: Vec<u32>,
    pub total: i128,
}

/// What is kept for both ends, and the numbers of the blocks that have two or more rows.
#[derive(Drop)]
pub struct Sides {
    pub low: Side,
    pub high: Side,
    pub wide: Vec<usize>,
}

/// The one that adds less; the best where both add as much.
fn lower_of(best: Best, at: u32, worth: i64) -> Best
    ensures { (f : List Cell → ℤ) (block : List (List Cell)) → IsBestLow f block at best → worth ≡ f (row_in_block block at) → IsBestLow f block (at + 1) result }
{
    if worth < best.worth {
        Best { at, worth }
    } else {
        best
    }
}

/// The one that adds more; the best where both add as much.
fn higher_of(best: Best, at: u32, worth: i64) -> Best
    ensures { (f : List Cell → ℤ) (block : List (List Cell)) → IsBestHigh f block at best → worth ≡ f (row_in_block block at) → IsBestHigh f block (at + 1) result }
{
    if best.worth < worth {
        Best { at, worth }
    } else {
        best
    }
}

/// A block of which one row was read, which adds so much.
fn opened(start: u32, worth: i64) -> Open
    ensures start { result.start ≡ start }
    ensures read { result.read ≡ 1 }
    ensures bests { (f : List Cell → ℤ) (block : List (List Cell)) → worth ≡ f (row_in_block block 0) → AreBests f block 1 result }
{
    let best = Best { at: 0, worth };
    Open {
        start,
        read: 1,
        least: best,
        most: best,
    }
}

/// The same block with one row of it more.
fn read_more(held: Open, worth: i64) -> Open
    requires { held.read < 2 ^ 31 }
    ensures start { result.start ≡ held.start }
    ensures read { result.read ≡ held.read + 1 }
    ensures bests { (f : List Cell → ℤ) (block : List (List Cell)) → AreBests f block held.read held → worth ≡ f (row_in_block block held.read) → AreBests f block (held.read + 1) result }
{
    Open {
        start: held.start,
        read: held.read + 1,
        least: lower_of(held.least, held.read, worth),
        most: higher_of(held.most, held.read, worth),
    }
}

/// One row more for an end, which adds so much.
fn take(side: &mut Side, place: u32, worth: i64) -> Result<(), NoMemory>
    requires { IsWithinBlocks MOST_ROWS side.old.total }
    ensures places { IfOk result (λ done. side.new.places.items ≡ side.old.places.items ++ place ∷ []) }
    ensures total { IfOk result (λ done. side.new.total ≡ side.old.total +ℤ worth) }
{
    side.places.push(place)?;
    side.total += worth as i128;
    Ok(())
}

/// A block was read: the row of it that adds least goes to the one end, and the one that adds most to the other.
fn close(held: Open, sides: &mut Sides) -> Result<(), NoMemory>
    requires least { held.start + held.least.at < 2 ^ 31 }
    requires most { held.start + held.most.at < 2 ^ 31 }
    requires low { IsWithinBlocks MOST_ROWS sides.old.low.total }
    requires high { IsWithinBlocks MOST_ROWS sides.old.high.total }
    ensures { IfOk result (λ done. (f : List Cell → ℤ) (rows : List (List Cell)) (front : List (List (List Cell))) (block : List (List Cell)) (later : List (List (List Cell))) → IsNextBlock rows front block later held.start → AreBests f block (length block) held → AreSides f rows front sides.old → AreSides f rows (front ++ block ∷ []) sides.new) }
{
    note(&mut sides.wide, sides.low.places.len(), held.read)?;
    take(&mut sides.low, held.start + held.least.at, held.least.worth)?;
    take(&mut sides.high, held.start + held.most.at, held.most.worth)?;
    Ok(())
}

/// No row is kept for either end.
fn blank(alloc: Global) -> Sides
    ensures low { result.low.places.items ≡ [] }
    ensures none_low { result.low.total ≡ pos 0 }
    ensures high { result.high.places.items ≡ [] }
    ensures none_high { result.high.total ≡ pos 0 }
    ensures wide { result.wide.items ≡ [] }
{
    Sides {
        low: Side {
            places: Vec::new(alloc),
            total: 0,
        },
        high: Side {
            places: Vec::new(alloc),
            total: 0,
        },
        wide: Vec::new(alloc),
    }
}

/// Both ends of a count or a sum: the rows that are kept of the table, one of each block, and what they add up to.
///
/// # Errors
///
/// `NoMemory` where memory is refused.
pub(crate) fn both_sums(
    alloc: Global,
    db: &Database,
    table: u32,
    goal: &Goal,
    tests: &[ColumnTest],
) -> Result<Sides, NoMemory>
    requires { table < length db.now }
    ensures { IfOk result (λ sides. (blocks : List (List (List Cell))) × IsInBlocks db.now table blocks × AreSides (worth (meets tests.now) (added goal.now)) (rows_at db.now table) blocks sides) }
{
    let mut sides = blank(alloc);
    let key = db.schema(table).key.as_slice();
    let mut left = db.rows(table);
    let Some(first) = left.next() else {
        return Ok(sides);
    };
    let mut last = first;
    let mut held = opened(0, worth(goal, tests, first));
    while let Some(row) = left.next() {
        let next = worth(goal, tests, row);
        if same_key(key, last, row) {
            held = read_more(held, next);
        } else {
            close(held, &mut sides)?;
            held = opened(held.start + held.read, next);
        }
        last = row;
    }
    close(held, &mut sides)?;
    Ok(sides)
}
