//! `judge`: groups of lists from elsewhere are judged as they come.

ghost use Rattle.std.specs.Prelude.{◌≡◌, ◌≤◌, ℕ, Some, MatchOption};
ghost use Rattle.session_state.specs.State.{State};
ghost use Rattle.command_shell.specs.declared.ending.Command.TheVariants.{Judge as JudgeWord};
ghost use Rattle.command_shell.specs.Judging.{IsBudget, ending_at};
ghost use Rattle.command_shell.specs.Top.{Ended, told};

use crate::ending::Ending;
use cqa_io::{Sink, Source};
use cqa_value::read_int;
use group_stream::{StreamEnd, judge_stream};
use group_text::Wanted;
use std::alloc::Global;

/// The most lists that a search for a least or a greatest value looks at, where no budget is told.
pub const MOST_WORK: u32 = 10_000_000;

/// The most digits of a budget.
const MOST_DIGITS: usize = 10;

/// The budget that some digits write. `None` where there are more than ten, or a sign, or they write none of 32 bits.
pub fn budget_of(digits: &[u8]) -> Option<u32>
    ensures { MatchOption result ((budget : ℕ) → IsBudget digits.now budget → ⊥) (λ budget. IsBudget digits.now budget) }
{
    if digits.len() > MOST_DIGITS || digits.first() == Some(&b'-') {
        return None;
    }
    let number = read_int(digits)?;
    if number < 0 || number > u32::MAX as i64 {
        return None;
    }
    Some(number as u32)
}

/// How the top call ends where a stream of groups ended so.
fn ending_at(end: StreamEnd) -> Ending
    ensures { result ≡ ending_at end }
{
    match end {
        StreamEnd::Answered => Ending::Answered,
        StreamEnd::WithRefusal => Ending::WithRefusal,
        StreamEnd::ReadFault => Ending::ReadFault,
        StreamEnd::WriteFault => Ending::WriteFault,
        StreamEnd::OutOfMemory => Ending::OutOfMemory,
        StreamEnd::TooLong => Ending::TooLong,
    }
}

/// Reads groups of lists, and writes what is wanted of each.
pub fn judge<S: Source, K: Sink>(
    alloc: Global,
    wanted: Wanted,
    budget: u32,
    source: &mut S,
    sink: &mut K,
) -> Ending
    ensures row { (state : State) → Ended (Some (JudgeWord wanted budget)) result (told (S.left source.old) (K.held sink.old) (S.faults source.old) (K.faults sink.old)) (told (S.left source.new) (K.held sink.new) (S.faults source.new) (K.faults sink.new)) state state }
    ensures reads { S.faults source.old ≤ S.faults source.new }
    ensures writes { K.faults sink.old ≤ K.faults sink.new }
{
    ending_at(judge_stream(alloc, wanted, budget, source, sink))
}
