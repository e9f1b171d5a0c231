//! Which rows of a group have extreme values, block by block.

ghost use Rattle.std.specs.Prelude.{◌≡◌, ◌⊎◌, ◌<◌, suc, ℕ, Bool, true, List, length};
ghost use Rattle.std.specs.Option.{option_copied};
ghost use Rattle.cqa_value.specs.declared.value.Value.{Value as Cell};
ghost use Rattle.range_ask.specs.Finding.{row_in_block};
ghost use Rattle.range_ask.specs.Tallying.{rows_so_far, AreFar, IsNearer, IsPeaking, IsPeakSettled, IsSureOf, NoneOf};

use crate::reach::further_row;
use crate::total::Turn;
use crate::way::Way;
use cqa_value::Row;

/// Rows of a group: those whose values lie furthest one way and the other. And of the blocks that have no other rows the row that lies
/// furthest of those that lie least far in each: before the last block that has rows of the group, whose number it is; in this one;
/// and of both.
#[derive(Clone, Copy)]
pub struct Peak<'a> {
    pub number: u32,
    pub before: Option<&'a Row>,
    pub near: Option<&'a Row>,
    pub sure: Option<&'a Row>,
    pub far: Option<&'a Row>,
    pub top: Option<&'a Row>,
}

/// The row before a block, and that of the block which lies least far, with one row of it more.
fn nearer<'a>(
    way: Way,
    col: u32,
    turn: Turn,
    row: &'a Row,
    peak: Peak<'a>,
) -> (Option<&'a Row>, Option<&'a Row>)
    ensures { IsNearer way col turn row.now peak.entry (option_copied result.0) (option_copied result.1) }
{
    if peak.number != turn.number {
        return (peak.sure, if turn.sure { Some(row) } else { None });
    }
    if !turn.sure {
        return (peak.before, None);
    }
    let near = further_row(way.turned(), col, peak.near, Some(row));
    (peak.before, near)
}

/// One row more of a group.
pub(crate) fn more_peak<'a>(
    way: Way,
    col: u32,
    turn: Turn,
    row: &'a Row,
    peak: Peak<'a>,
) -> Peak<'a>
    ensures far { (p : List Cell → Bool) (front : List (List (List Cell))) (block : List (List Cell)) (n : ℕ) → n < length block → row_in_block block n ≡ row.now → p row.now ≡ true → AreFar way p col (rows_so_far front block n) peak.entry → AreFar way p col (rows_so_far front block (suc n)) result }
    ensures peaking { (p : List Cell → Bool) (front : List (List (List Cell))) (block : List (List Cell)) (n : ℕ) → turn.number ≡ suc (length front) → IsSureOf turn.sure p block → n < length block → row_in_block block n ≡ row.now → p row.now ≡ true → ((IsPeakSettled way p col front peak.entry × NoneOf p block n) ⊎ IsPeaking way p col turn.sure front block n peak.entry) → IsPeaking way p col turn.sure front block (suc n) result }
{
    let (before, near) = nearer(way, col, turn, row, peak);
    Peak {
        number: turn.number,
        before,
        near,
        sure: further_row(way, col, before, near),
        far: further_row(way, col, peak.far, Some(row)),
        top: further_row(way.turned(), col, peak.top, Some(row)),
    }
}
