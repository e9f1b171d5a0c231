//! The faults of texts of formulas and logs.

use thiserror::Error;

/// The parts of a proof's text.
#[derive(Clone, Copy, Debug, PartialEq, Eq)]
pub enum Part {
    Formula,
    Log,
}

/// The first line of a part that breaks a rule of its text. The lines of a formula are numbered from 1
/// over the whole text, those of a log from 1 after the `lrat` line.
#[derive(Clone, Copy, Debug, PartialEq, Eq, Error)]
#[error("line {line} breaks a rule of the text")]
pub struct FormatFault {
    pub line: u64,
    pub part: Part,
}
