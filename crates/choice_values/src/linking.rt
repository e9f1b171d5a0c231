//! Which blocks hang together by lists, and which block most lists name. No clause depends on it: what it says is tried, and only how
//! long a search takes lies in it.

use crate::lists::WeightedLists;
use crate::room::Room;
use block_choices::BlockRow;

/// No part has this number.
const NO_PART: u32 = u32::MAX;

/// The mark of a block.
fn mark_at(marks: &[u32], block: u32) -> u32 {
    *marks.get(block as usize).unwrap_or(&block)
}

/// Marks a block.
fn mark(marks: &mut Vec<u32>, block: u32, with: u32) {
    let at = block as usize;
    if at < marks.len() {
        marks[at] = with;
    }
}

/// The block that stands for those that hang together with a block.
fn head(heads: &mut Vec<u32>, block: u32) -> u32 {
    let mut at = block;
    for _step in 0..heads.len() {
        let next = mark_at(heads.as_slice(), at);
        if next == at {
            return at;
        }
        let far = mark_at(heads.as_slice(), next);
        mark(heads, at, far);
        at = far;
    }
    at
}

/// Has the blocks of a list hang together.
fn link(heads: &mut Vec<u32>, names: &[BlockRow]) {
    let Some(first) = names.first() else {
        return;
    };
    for name in names {
        let one = head(heads, first.block);
        let other = head(heads, name.block);
        mark(heads, other, one);
    }
}

/// Has each block of a list stand for itself.
fn unlink(room: &mut Room, names: &[BlockRow]) {
    for name in names {
        mark(&mut room.heads, name.block, name.block);
        mark(&mut room.numbers, name.block, NO_PART);
    }
}

/// Numbers the blocks of a list by the one that stands for them, which gets the next number if it has none.
fn number(room: &mut Room, names: &[BlockRow], count: u32) -> u32 {
    let Some(first) = names.first() else {
        return count;
    };
    let head = head(&mut room.heads, first.block);
    let mut next = count;
    let mut number = mark_at(room.numbers.as_slice(), head);
    if number == NO_PART {
        number = count;
        next = count.saturating_add(1);
        mark(&mut room.numbers, head, number);
    }
    for name in names {
        mark(&mut room.numbers, name.block, number);
    }
    next
}

/// Numbers the blocks of lists by parts that share no block; how many parts there are.
pub fn number_parts(lists: &WeightedLists, room: &mut Room) -> u32 {
    for at in 0..lists.len() {
        unlink(room, lists.names(at));
    }
    for at in 0..lists.len() {
        link(&mut room.heads, lists.names(at));
    }
    let mut count = 0;
    for at in 0..lists.len() {
        count = number(room, lists.names(at), count);
    }
    count
}

/// Counts the blocks of a list as named by none.
fn uncount(counts: &mut Vec<u32>, names: &[BlockRow]) {
    for name in names {
        mark(counts, name.block, 0);
    }
}

/// Counts the blocks of a list once more; the block that is named most so far, and how often.
fn count(counts: &mut Vec<u32>, names: &[BlockRow], most: (u32, u32)) -> (u32, u32) {
    let mut most = most;
    for name in names {
        let more = mark_at(counts.as_slice(), name.block).saturating_add(1);
        mark(counts, name.block, more);
        if more > most.1 {
            most = (name.block, more);
        }
    }
    most
}

/// The block that most lists name.
pub fn most_named(lists: &WeightedLists, counts: &mut Vec<u32>) -> u32 {
    for at in 0..lists.len() {
        uncount(counts, lists.names(at));
    }
    let mut most = (0, 0);
    for at in 0..lists.len() {
        most = count(counts, lists.names(at), most);
    }
    most.0
}
