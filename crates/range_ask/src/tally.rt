//! What is kept of a group while the blocks of a table are read.

ghost use Rattle.std.specs.Prelude.{◌≡◌, ◌≤◌, ◌+ℤ◌, ℕ, Bool, List, IfOk, Some, length};
ghost use Rattle.std.specs.Option.{option_copied};
ghost use Rattle.cqa_value.specs.declared.value.Value.{Value as Cell};
ghost use Rattle.cqa_model.specs.declared.limits.TheConstants.{MOST_ROWS};
ghost use Rattle.range_ask.specs.Reaching.{as_end};
ghost use Rattle.range_ask.specs.Walking.{IsWithinBlocks};
ghost use Rattle.range_ask.specs.Tallying.{peak_of, total_of, HasEnds, IsMore, IsWhole};

use crate::choice::end_of;
use crate::peak::{Peak, more_peak};
use crate::total::{Total, Turn, more_total};
use crate::way::Way;
use crate::worth::added;
use aggregate_range::{End, Goal};
use cqa_value::{NoMemory, Row};
use std::alloc::Global;

/// What rows of a group add up to, or which of them have extreme values.
#[derive(Clone, Copy)]
pub enum Tally<'a> {
    Total(Total),
    Peak(Peak<'a>),
}

/// What rows add up to; nothing where there are none.
fn total_of(tally: Option<Tally<'_>>) -> Total
    ensures { result ≡ total_of tally.entry }
{
    match tally {
        Some(Tally::Total(total)) => total,
        Some(Tally::Peak(_)) | None => Total {
            number: 0,
            low: 0,
            high: 0,
            least: 0,
            most: 0,
        },
    }
}

/// Which rows have extreme values; none where there are none.
fn peak_of<'a>(tally: Option<Tally<'a>>) -> Peak<'a>
    ensures { result ≡ peak_of tally.entry }
{
    match tally {
        Some(Tally::Peak(peak)) => peak,
        Some(Tally::Total(_)) | None => Peak {
            number: 0,
            before: None,
            near: None,
            sure: None,
            far: None,
            top: None,
        },
    }
}

/// One row more of a group.
pub(crate) fn more<'a>(goal: &Goal, turn: Turn, row: &'a Row, tally: Option<Tally<'a>>) -> Tally<'a>
    ensures { IsMore goal.now turn row.now tally.entry result }
{
    match goal {
        Goal::Count | Goal::Sum(_) => {
            Tally::Total(more_total(turn, added(goal, row), total_of(tally)))
        }
        Goal::Min(col) => Tally::Peak(more_peak(Way::Down, *col, turn, row, peak_of(tally))),
        Goal::Max(col) => Tally::Peak(more_peak(Way::Up, *col, turn, row, peak_of(tally))),
    }
}

/// Both ends of the rows that are kept: the values of two rows in a column.
fn ends_at(
    alloc: Global,
    col: u32,
    least: Option<&Row>,
    greatest: Option<&Row>,
) -> Result<(End, End), NoMemory>
    ensures least { IfOk result (λ ends. ends.0 ≡ as_end col (option_copied least.entry)) }
    ensures greatest { IfOk result (λ ends. ends.1 ≡ as_end col (option_copied greatest.entry)) }
{
    let least = end_of(alloc, col, least)?;
    let greatest = end_of(alloc, col, greatest)?;
    Ok((least, greatest))
}

/// The sum of both parts.
fn sum_of(before: i128, part: i64) -> i128
    ensures { (blocks : ℕ) → blocks ≤ MOST_ROWS → IsWithinBlocks blocks (before +ℤ part) → result ≡ before +ℤ part }
{
    before.saturating_add(part as i128)
}

/// Both ends of a group.
///
/// # Errors
///
/// `NoMemory` where memory is refused.
pub(crate) fn both_ends(
    alloc: Global,
    goal: &Goal,
    tally: Tally<'_>,
) -> Result<(End, End), NoMemory>
    ensures { IfOk result (λ ends. (p : List Cell → Bool) (blocks : List (List (List Cell))) → length blocks ≤ MOST_ROWS → IsWhole goal.now p blocks (Some tally.entry) → HasEnds goal.now tally.entry ends.0 ends.1) }
{
    match goal {
        Goal::Count | Goal::Sum(_) => {
            let total = total_of(Some(tally));
            let low = sum_of(total.low, total.least);
            let high = sum_of(total.high, total.most);
            Ok((End::Number(low), End::Number(high)))
        }
        Goal::Min(col) => {
            let peak = peak_of(Some(tally));
            if peak.sure.is_some() {
                ends_at(alloc, *col, peak.far, peak.sure)
            } else {
                ends_at(alloc, *col, None, peak.top)
            }
        }
        Goal::Max(col) => {
            let peak = peak_of(Some(tally));
            ends_at(alloc, *col, peak.sure, peak.far)
        }
    }
}
