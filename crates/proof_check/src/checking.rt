//! Reads an input of a formula and a log, and checks it.

ghost use Rattle.std.specs.Prelude.{◌≡◌, ◌≤◌, IfOk, Ok, length, drop};
ghost use Rattle.lrat_check.specs.LogTexts.{log_of};
ghost use Rattle.cnf_form.specs.Lines.{lines};
ghost use Rattle.proof_check.specs.declared.reply.ProofReply.{ProofReply as Reply};
ghost use Rattle.proof_check.specs.declared.reply.ProofReply.TheVariants.{Verified};
ghost use Rattle.proof_check.specs.Verdicts.{Checks, ChecksLog, IsUnsatisfiable, OneReply, PrintedIsVerified};

use crate::ProofReply;
use cnf_form::{Cnf, read_formula};
use cqa_value::{Fail, NoMemory};
use lrat_check::check_text;
use std::alloc::Global;

/// Reads the text of a log over a formula, and checks it.
fn check_log(alloc: Global, cnf: &Cnf, text: &[u8]) -> Result<ProofReply, NoMemory>
    ensures { IfOk result (ChecksLog cnf.now (log_of cnf.now.vars 1 (lines text.now))) }
{
    match check_text(alloc, cnf, text) {
        Ok(None) => Ok(ProofReply::Verified),
        Ok(Some(fault)) => Ok(ProofReply::BadLog(fault)),
        Err(Fail::NoMemory) => Err(NoMemory),
        Err(Fail::Refused(fault)) => Ok(ProofReply::BadText(fault)),
    }
}

/// The bytes from a place on.
fn rest(bytes: &[u8], from: usize) -> &[u8]
    requires { from ≤ length bytes.now }
    ensures { result.now ≡ drop from bytes.now }
{
    &bytes[from..]
}

/// Reads an input, a formula in DIMACS, the line `lrat` and a log in LRAT, and checks that the log refutes the formula.
///
/// # Errors
///
/// `NoMemory` where memory is refused.
pub fn check_proof(alloc: Global, bytes: &[u8]) -> Result<ProofReply, NoMemory>
    // The reply is what the input deserves, and no other: verified exactly where the log refutes the formula, and else the first fault.
    ensures exact { IfOk result (Checks bytes.now) }
    ensures only { (reply : Reply) → Checks bytes.now reply → IfOk result (λ r. r ≡ reply) }
    // Nothing satisfies a formula whose log is verified.
    ensures sound { IfOk result (λ reply. reply ≡ Verified → IsUnsatisfiable bytes.now) }
{
    match read_formula(alloc, bytes) {
        Ok((cnf, start)) => check_log(alloc, &cnf, rest(bytes, start)),
        Err(Fail::NoMemory) => Err(NoMemory),
        Err(Fail::Refused(fault)) => Ok(ProofReply::BadText(fault)),
    }
}

/// An input has at most one reply.
pub fn input_has_one_reply()
    ensures { OneReply }
{}

/// What is written of a formula and of a refutation of it is verified.
pub fn printed_is_verified()
    ensures { PrintedIsVerified }
{}
