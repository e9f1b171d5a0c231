//! How a stream and its parts may end.

ghost use Rattle.std.specs.Prelude.{◌≡◌};
ghost use Rattle.group_stream.specs.declared.ending.Stop.TheVariants as stops;

use cqa_io::Failed;
use cqa_value::NoMemory;

/// The most bytes of an input.
pub const MOST_JUDGED: usize = 9_223_372_036_854_775_807;

/// How a stream ends.
#[derive(Clone, Copy, Debug, PartialEq, Eq)]
pub enum StreamEnd {
    /// All was answered, and nothing was refused.
    Answered,
    /// All was answered, and something was refused.
    WithRefusal,
    /// A read failed.
    ReadFault,
    /// A write failed.
    WriteFault,
    /// Memory was refused.
    OutOfMemory,
    /// The input is longer than the limit.
    TooLong,
}

/// Why the answers stop before the end of the input.
#[derive(Clone, Copy, Debug, PartialEq, Eq)]
pub enum Stop {
    WriteFault,
    OutOfMemory,
}

impl From<NoMemory> for Stop {
    ghost from_gives = { λ _ stop. stop ≡ stops.OutOfMemory };

    fn from(_: NoMemory) -> Self {
        Stop::OutOfMemory
    }
}

impl From<Failed> for Stop {
    ghost from_gives = { λ _ stop. stop ≡ stops.WriteFault };

    fn from(_: Failed) -> Self {
        Stop::WriteFault
    }
}
