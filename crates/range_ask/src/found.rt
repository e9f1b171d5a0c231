//! What is found of the rows of a block: one that doesn't meet the tests, and of those that do two of extreme values.

ghost use Rattle.std.specs.Prelude.{◌≡◌, ◌+◌, ◌^◌, ◌<◌, ℕ, Bool, List, true};
ghost use Rattle.cqa_value.specs.declared.value.Value.{Value as Cell};
ghost use Rattle.range_ask.specs.Ranges.{meets};
ghost use Rattle.range_ask.specs.Finding.{row_in_block, IsFurthest, IsMetSoFar};

use crate::way::{Look, Way, is_further};
use crate::worth::meets;
use cqa_value::Row;

/// A row of a block that meets the tests, and its place in the block.
#[derive(Clone, Copy)]
pub struct Spot<'a> {
    pub at: u32,
    pub row: &'a Row,
}

/// A block that is being read: the place of its first row, how many were read, and of those one that doesn't meet the tests, and of
/// those that do the one whose value lies least far the way that is looked, and the one whose lies furthest.
#[derive(Clone, Copy)]
pub struct Met<'a> {
    pub start: u32,
    pub read: u32,
    pub missing: Option<u32>,
    pub near: Option<Spot<'a>>,
    pub far: Option<Spot<'a>>,
}

/// The one that lies further; the best where neither does.
fn further_spot<'a>(way: Way, col: u32, best: Option<Spot<'a>>, next: Spot<'a>) -> Option<Spot<'a>>
    ensures { (p : List Cell → Bool) (block : List (List Cell)) → IsFurthest way p col block next.entry.at best.entry → p (row_in_block block next.entry.at) ≡ true → row_in_block block next.entry.at ≡ next.entry.row.now → IsFurthest way p col block (next.entry.at + 1) result }
{
    let Some(spot) = best else {
        return Some(next);
    };
    if is_further(way, col, next.row, spot.row) {
        Some(next)
    } else {
        Some(spot)
    }
}

/// A block of which no row was read.
fn unread<'a>(start: u32) -> Met<'a>
    ensures start { result.start ≡ start }
    ensures read { result.read ≡ 0 }
    ensures met { (look : Way) (p : List Cell → Bool) (col : ℕ) (block : List (List Cell)) → IsMetSoFar look p col block 0 result }
{
    Met {
        start,
        read: 0,
        missing: None,
        near: None,
        far: None,
    }
}

/// The same block with one row of it more.
pub(crate) fn read_row<'a>(look: &Look<'_>, held: Met<'a>, row: &'a Row) -> Met<'a>
    requires { held.read < 2 ^ 31 }
    ensures start { result.start ≡ held.entry.start }
    ensures read { result.read ≡ held.entry.read + 1 }
    ensures met { (block : List (List Cell)) → IsMetSoFar look.now.way (meets look.now.tests.now) look.now.col block held.entry.read held.entry → row.now ≡ row_in_block block held.entry.read → IsMetSoFar look.now.way (meets look.now.tests.now) look.now.col block (held.entry.read + 1) result }
{
    let at = held.read;
    let next = Spot { at, row };
    if meets(look.tests, row) {
        let back = look.way.turned();
        let near = further_spot(back, look.col, held.near, next);
        let far = further_spot(look.way, look.col, held.far, next);
        Met {
            start: held.start,
            read: at + 1,
            missing: held.missing,
            near,
            far,
        }
    } else {
        Met {
            start: held.start,
            read: at + 1,
            missing: Some(held.missing.unwrap_or(at)),
            near: held.near,
            far: held.far,
        }
    }
}

/// A block of which one row was read.
pub(crate) fn begun<'a>(look: &Look<'_>, start: u32, row: &'a Row) -> Met<'a>
    ensures start { result.start ≡ start }
    ensures read { result.read ≡ 1 }
    ensures met { (block : List (List Cell)) → row.now ≡ row_in_block block 0 → IsMetSoFar look.now.way (meets look.now.tests.now) look.now.col block 1 result }
{
    read_row(look, unread(start), row)
}
