//! Why a log is refused.

use thiserror::Error;

/// Why a step fails.
#[derive(Clone, Copy, Debug, PartialEq, Eq, Error)]
pub enum LogCause {
    /// An id of a deletion or a hint isn't live.
    #[error("an id isn't live")]
    UnknownId,
    /// The id of an addition isn't greater than each before it.
    #[error("an id doesn't rise")]
    IdNotRising,
    /// A hint's clause has two literals that aren't false.
    #[error("a hint's clause isn't a unit")]
    HintNotUnit,
    /// The hints end before all literals of one's clause are false.
    #[error("the hints end without a conflict")]
    NoConflict,
    /// A hint is negative.
    #[error("a hint is negative")]
    RatHint,
    /// No step fails, and none adds the empty clause.
    #[error("no step adds the empty clause")]
    NoEmptyClause,
}

/// The first step that fails, numbered from 1, and why; for `NoEmptyClause` the number of steps.
#[derive(Clone, Copy, Debug, PartialEq, Eq, Error)]
#[error("step {step}: {cause}")]
pub struct LogFault {
    pub step: u64,
    pub cause: LogCause,
}
