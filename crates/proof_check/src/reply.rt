//! What is said of a formula with a log, and the line that says it.

ghost use Rattle.std.specs.Prelude.{◌≡◌, IfOk, string_bytes};
ghost use Rattle.proof_check.specs.Verdicts.{cause_word, is_verified, line_of, log_line, part_word, text_line};

use cnf_form::{FormatFault, Part};
use cqa_value::NoMemory;
use lrat_check::{LogCause, LogFault};
use std::alloc::Global;

/// What is said of a formula with a log.
#[derive(Clone, Copy, Debug, PartialEq, Eq)]
pub enum ProofReply {
    /// It is a formula with a log that refutes it.
    Verified,
    /// A line breaks a rule of how formulas and logs are written.
    BadText(FormatFault),
    /// The log doesn't refute the formula.
    BadLog(LogFault),
}

impl ProofReply {
    /// Whether the log refutes the formula.
    pub fn is_verified(self) -> bool
        ensures { result ≡ is_verified self }
    {
        match self {
            ProofReply::Verified => true,
            ProofReply::BadText(_) => false,
            ProofReply::BadLog(_) => false,
        }
    }

    /// The reply as a line.
    ///
    /// # Errors
    ///
    /// `NoMemory` where memory is refused.
    pub fn line(self, alloc: Global) -> Result<String, NoMemory>
        ensures { IfOk result (λ line. string_bytes line ≡ line_of self) }
    {
        match self {
            ProofReply::Verified => Ok(format!(in alloc; "verified\n")?),
            ProofReply::BadText(fault) => text_line(alloc, fault),
            ProofReply::BadLog(fault) => log_line(alloc, fault),
        }
    }
}

fn text_line(alloc: Global, fault: FormatFault) -> Result<String, NoMemory>
    ensures { IfOk result (λ line. string_bytes line ≡ text_line fault) }
{
    let line = fault.line;
    let word = part_word(fault.part);
    Ok(format!(in alloc; "refused line {line} {word}\n")?)
}

fn log_line(alloc: Global, fault: LogFault) -> Result<String, NoMemory>
    ensures { IfOk result (λ line. string_bytes line ≡ log_line fault) }
{
    let step = fault.step;
    let word = cause_word(fault.cause);
    Ok(format!(in alloc; "refused step {step} {word}\n")?)
}

/// The name of a fault in a part of the input.
fn part_word(part: Part) -> &'static str
    ensures { result.now ≡ part_word part }
{
    match part {
        Part::Formula => "BadFormula",
        Part::Log => "BadLog",
    }
}

/// The name of the cause that a step of a log fails by.
fn cause_word(cause: LogCause) -> &'static str
    ensures { result.now ≡ cause_word cause }
{
    match cause {
        LogCause::UnknownId => "UnknownId",
        LogCause::IdNotRising => "IdNotRising",
        LogCause::HintNotUnit => "HintNotUnit",
        LogCause::NoConflict => "NoConflict",
        LogCause::RatHint => "RatHint",
        LogCause::NoEmptyClause => "NoEmptyClause",
    }
}
