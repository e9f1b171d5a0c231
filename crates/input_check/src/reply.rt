//! What the checker says of an input, and the line that it writes.

ghost use Rattle.std.specs.Prelude.{◌≡◌, IfOk, string_bytes};
ghost use Rattle.input_check.specs.Inputs.{of_certificate, of_proof};
ghost use Rattle.input_check.specs.Verdicts.{block_line, block_word, input_line, is_shown, statement_line};

use block_tree::{BlockCause, RewriteCheck};
use cnf_form::FormatFault;
use cqa_value::NoMemory;
use lrat_check::LogFault;
use proof_check::ProofReply;
use std::alloc::Global;

/// What the checker says of an input.
#[derive(Clone, Copy, Debug, PartialEq, Eq)]
pub enum CheckReply {
    /// It is a formula with a log that refutes it, or a certificate whose tree of blocks passes.
    Verified,
    /// A line breaks a rule of how formulas and logs are written.
    BadText(FormatFault),
    /// The log doesn't refute the formula.
    BadLog(LogFault),
    /// A statement of a certificate, from 1, isn't of its form, or is missing.
    BadStatement { statement: u32 },
    /// A block of a certificate, from 1, can't stand where it does, or is missing.
    BadBlock { number: u32, cause: BlockCause },
}

impl CheckReply {
    /// What is said of a formula with a log.
    pub(crate) fn of_proof(reply: ProofReply) -> CheckReply
        ensures { result ≡ of_proof reply }
    {
        match reply {
            ProofReply::Verified => CheckReply::Verified,
            ProofReply::BadText(fault) => CheckReply::BadText(fault),
            ProofReply::BadLog(fault) => CheckReply::BadLog(fault),
        }
    }

    /// What is said of a certificate.
    pub(crate) fn of_certificate(check: RewriteCheck) -> CheckReply
        ensures { result ≡ of_certificate check }
    {
        match check {
            RewriteCheck::Verified => CheckReply::Verified,
            RewriteCheck::BadText { statement } => CheckReply::BadStatement { statement },
            RewriteCheck::BadBlock { number, cause } => CheckReply::BadBlock { number, cause },
        }
    }

    /// Whether the input shows what it is to show.
    pub fn is_verified(self) -> bool
        ensures { result ≡ is_shown self }
    {
        match self {
            CheckReply::Verified => true,
            CheckReply::BadText(_) => false,
            CheckReply::BadLog(_) => false,
            CheckReply::BadStatement { .. } => false,
            CheckReply::BadBlock { .. } => false,
        }
    }

    /// The reply as a line.
    ///
    /// # Errors
    ///
    /// `NoMemory` where memory is refused.
    pub fn line(self, alloc: Global) -> Result<String, NoMemory>
        ensures { IfOk result (λ line. string_bytes line ≡ input_line self) }
    {
        match self {
            CheckReply::Verified => ProofReply::Verified.line(alloc),
            CheckReply::BadText(fault) => ProofReply::BadText(fault).line(alloc),
            CheckReply::BadLog(fault) => ProofReply::BadLog(fault).line(alloc),
            CheckReply::BadStatement { statement } => statement_line(alloc, statement),
            CheckReply::BadBlock { number, cause } => block_line(alloc, number, cause),
        }
    }
}

fn statement_line(alloc: Global, statement: u32) -> Result<String, NoMemory>
    ensures { IfOk result (λ line. string_bytes line ≡ statement_line statement) }
{
    Ok(format!(in alloc; "refused statement {statement} BadText\n")?)
}

fn block_line(alloc: Global, number: u32, cause: BlockCause) -> Result<String, NoMemory>
    ensures { IfOk result (λ line. string_bytes line ≡ block_line number cause) }
{
    let word = block_word(cause);
    Ok(format!(in alloc; "refused block {number} {word}\n")?)
}

/// The name of the cause that a block can't stand by.
fn block_word(cause: BlockCause) -> &'static str
    ensures { result.now ≡ block_word cause }
{
    match cause {
        BlockCause::WrongTable => "WrongTable",
        BlockCause::NotABlock => "NotABlock",
        BlockCause::OtherRows => "OtherRows",
        BlockCause::NotFitting => "NotFitting",
        BlockCause::Missing => "Missing",
        BlockCause::Surplus => "Surplus",
    }
}
