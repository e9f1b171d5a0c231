//! The least value of lists, by parts that share no block and by the rows of one block after the other.

ghost use Rattle.std.specs.Prelude.{◌≡◌, ◌<◌, IfOk, IsTrue};
ghost use Rattle.choice_values.specs.Choosing.{size_at, AreFree, AreRows, IsFree, IsSolved, IsSolvedWith};
ghost use Rattle.choice_values.specs.Parts.{AreSolved, ShareNoBlock};

use crate::best::Fault;
use crate::keeping::{keep, put_aside, put_back};
use crate::linking::{most_named, number_parts};
use crate::lists::WeightedLists;
use crate::numbers::both;
use crate::parts::{fill_parts, no_lists};
use crate::room::Room;
use crate::under::{under, whole};
use block_choices::BlockRow;
use std::alloc::Global;

/// How many rows a block has.
fn size_of(sizes: &[u32], block: u32) -> u32
    ensures { result ≡ size_at sizes.now block }
{
    *sizes.get(block as usize).unwrap_or(&1)
}

/// Whether a list names a block.
fn names_block(names: &[BlockRow], block: u32) -> bool
    ensures { IsTrue result → IsFree block names.now → ⊥ }
{
    for name in names {
        if name.block == block {
            return true;
        }
    }
    false
}

/// Whether some list does.
fn is_named(lists: &WeightedLists, block: u32) -> bool
    ensures { IsTrue result → AreFree block lists.now → ⊥ }
{
    for at in 0..lists.len() {
        if names_block(lists.names(at), block) {
            return true;
        }
    }
    false
}

/// The least value among the choices of a row of a block.
#[cycle(solve)]
fn solve_with(
    alloc: Global,
    sizes: &[u32],
    lists: &WeightedLists,
    pick: BlockRow,
    rows: &mut Vec<u32>,
    room: &mut Room,
    depth: u32,
) -> Result<i128, Fault>
    requires rows { AreRows sizes.now rows.old.items }
    requires there { pick.row < size_at sizes.now pick.block }
    requires named { AreFree pick.block lists.now → ⊥ }
    ensures { IfOk result (IsSolvedWith sizes.now lists.now pick.block pick.row rows.old.items rows.new.items) }
{
    let rest = under(alloc, lists, pick.block, pick.row, &mut room.left)?;
    let solved = solve(alloc, sizes, &rest.lists, rows, room, depth);
    let base = rest.base;
    drop(rest);
    let value = both(solved?, base)?;
    keep(rows, pick.block, pick.row);
    Ok(value)
}

/// The least value by the rows of one block.
#[cycle(solve)]
fn solve_cases(
    alloc: Global,
    sizes: &[u32],
    lists: &WeightedLists,
    rows: &mut Vec<u32>,
    room: &mut Room,
    depth: u32,
) -> Result<i128, Fault>
    requires { AreRows sizes.now rows.old.items }
    ensures { IfOk result (IsSolved sizes.now lists.now rows.old.items rows.new.items) }
{
    let block = most_named(lists, &mut room.counts);
    if !is_named(lists, block) {
        return Err(Fault::Spent);
    }
    let mut aside = Vec::new(alloc);
    let mut best = solve_with(
        alloc,
        sizes,
        lists,
        BlockRow { block, row: 0 },
        rows,
        room,
        depth,
    )?;
    put_aside(lists, rows.as_slice(), &mut aside)?;
    for row in 1..size_of(sizes, block) {
        let next = solve_with(
            alloc,
            sizes,
            lists,
            BlockRow { block, row },
            rows,
            room,
            depth,
        )?;
        if next < best {
            best = next;
            put_aside(lists, rows.as_slice(), &mut aside)?;
        }
    }
    put_back(aside.as_slice(), rows);
    Ok(best)
}

/// The least value of parts that share no block, added up.
#[cycle(solve)]
fn solve_each(
    alloc: Global,
    sizes: &[u32],
    parts: &[WeightedLists],
    rows: &mut Vec<u32>,
    room: &mut Room,
    depth: u32,
) -> Result<i128, Fault>
    requires rows { AreRows sizes.now rows.old.items }
    requires apart { ShareNoBlock parts.now }
    ensures { IfOk result (AreSolved sizes.now parts.now rows.old.items rows.new.items) }
{
    let mut sum = 0;
    for part in parts {
        let more = solve_cases(alloc, sizes, part, rows, room, depth)?;
        sum = both(sum, more)?;
    }
    Ok(sum)
}

/// The least value by so many parts.
#[cycle(solve)]
fn solve_parts(
    alloc: Global,
    sizes: &[u32],
    lists: &WeightedLists,
    count: u32,
    rows: &mut Vec<u32>,
    room: &mut Room,
    depth: u32,
) -> Result<i128, Fault>
    requires { AreRows sizes.now rows.old.items }
    ensures { IfOk result (IsSolved sizes.now lists.now rows.old.items rows.new.items) }
{
    let mut parts = no_lists(alloc, count)?;
    let solved = match fill_parts(lists, room.numbers.as_slice(), &mut parts) {
        Ok(true) => solve_each(alloc, sizes, parts.as_slice(), rows, room, depth),
        Ok(false) => Err(Fault::Spent),
        Err(fault) => Err(fault),
    };
    drop(parts);
    solved
}

/// Rows of the blocks that the lists name, by which they have the least value, and that value. The rows of other blocks stay.
///
/// # Errors
///
/// `Spent` where the budget or the depth doesn't do or a sum is past `i128`, and `NoMemory` where memory is refused.
#[cycle(solve)]
pub fn solve(
    alloc: Global,
    sizes: &[u32],
    lists: &WeightedLists,
    rows: &mut Vec<u32>,
    room: &mut Room,
    depth: u32,
) -> Result<i128, Fault>
    requires { AreRows sizes.now rows.old.items }
    ensures { IfOk result (IsSolved sizes.now lists.now rows.old.items rows.new.items) }
{
    if lists.len() == 0 {
        return Ok(0);
    }
    room.spend(lists.len())?;
    if depth == 0 {
        return Err(Fault::Spent);
    }
    let count = number_parts(lists, room);
    if count == 0 {
        return Ok(whole(lists)?);
    }
    if count == 1 {
        return solve_cases(alloc, sizes, lists, rows, room, depth - 1);
    }
    solve_parts(alloc, sizes, lists, count, rows, room, depth - 1)
}
