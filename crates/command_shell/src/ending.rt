//! How the top call and its parts may end.

ghost use Rattle.std.specs.Prelude.{◌≡◌};
ghost use Rattle.command_shell.specs.declared.ending.Stop.TheVariants as stops;
ghost use Rattle.command_shell.specs.Parts.{ending_of};
ghost use Rattle.command_shell.specs.Top.{code_of};

use cqa_io::Failed;
use cqa_value::NoMemory;
use group_text::Wanted;

/// What the words ask for.
#[derive(Clone, Copy, Debug, PartialEq, Eq)]
pub enum Command {
    /// Answer the statements of the input.
    Run,
    /// Check that the log in the input refutes the formula in it.
    Check,
    /// Run the script of a size, and tell the numbers of the run.
    Demo(u32),
    /// Say what is wanted of each group of lists in the input, by a budget for each search.
    Judge { wanted: Wanted, budget: u32 },
}

/// How the top call ends.
#[derive(Clone, Copy, Debug, PartialEq, Eq)]
pub enum Ending {
    /// All was answered, and nothing was refused.
    Answered,
    /// All was answered, and something was refused.
    WithRefusal,
    /// The words aren't accepted.
    BadWords,
    /// A read failed.
    ReadFault,
    /// A write failed.
    WriteFault,
    /// Memory was refused.
    OutOfMemory,
    /// The input is longer than the limit.
    TooLong,
}

/// How the reading of the input ends.
#[derive(Clone, Copy, Debug, PartialEq, Eq)]
pub enum ReadEnd {
    End,
    Fault,
    TooLong,
    OutOfMemory,
}

/// Why the answers stop before the end of the input.
#[derive(Clone, Copy, Debug, PartialEq, Eq)]
pub enum Stop {
    WriteFault,
    OutOfMemory,
}

impl From<NoMemory> for Stop {
    ghost from_gives = { λ _ stop. stop ≡ stops.OutOfMemory };

    fn from(_: NoMemory) -> Self {
        Stop::OutOfMemory
    }
}

impl From<Failed> for Stop {
    ghost from_gives = { λ _ stop. stop ≡ stops.WriteFault };

    fn from(_: Failed) -> Self {
        Stop::WriteFault
    }
}

impl From<Stop> for Ending {
    ghost from_gives = { λ stop ending. ending ≡ ending_of stop };

    fn from(stop: Stop) -> Self {
        match stop {
            Stop::WriteFault => Ending::WriteFault,
            Stop::OutOfMemory => Ending::OutOfMemory,
        }
    }
}

/// The status of a process that ends so.
pub fn code(ending: Ending) -> u8
    ensures { result ≡ code_of ending }
{
    match ending {
        Ending::Answered => 0,
        Ending::WithRefusal => 1,
        Ending::BadWords => 2,
        Ending::ReadFault => 3,
        Ending::WriteFault => 4,
        Ending::OutOfMemory => 5,
        Ending::TooLong => 6,
    }
}
