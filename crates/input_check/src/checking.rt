//! An input, checked by its first line.

ghost use Rattle.std.specs.Prelude.{◌≡◌, ◌≤◌, IfOk, length};
ghost use Rattle.cqa_model.specs.declared.limits.TheConstants.{LONGEST_INPUT};
ghost use Rattle.input_check.specs.declared.reply.CheckReply.{CheckReply as Reply};
ghost use Rattle.input_check.specs.declared.reply.CheckReply.TheVariants.{Verified};
ghost use Rattle.input_check.specs.Inputs.{ChecksInput, IsShown, OneInputReply};

use crate::CheckReply;
use crate::first_line::certificate_text;
use cqa_value::NoMemory;
use proof_check::check_proof;
use rewrite_check::check_rewriting;
use std::alloc::Global;

/// Checks an input: where its first line is `rewriting`, as a certificate of rewriting, else as a formula in DIMACS, the line
/// `lrat` and a log in LRAT.
///
/// # Errors
///
/// `NoMemory` where memory is refused.
pub fn check_bytes(alloc: Global, bytes: &[u8]) -> Result<CheckReply, NoMemory>
    requires { length bytes.now ≤ LONGEST_INPUT }
    // The reply is what the input deserves, and no other.
    ensures exact { IfOk result (ChecksInput bytes.now) }
    ensures only { (reply : Reply) → ChecksInput bytes.now reply → IfOk result (λ r. r ≡ reply) }
    // What is verified is shown: nothing satisfies the formula, or the row is certain wherever the blocks stand.
    ensures sound { IfOk result (λ reply. reply ≡ Verified → IsShown bytes.now) }
{
    match certificate_text(bytes) {
        Some(text) => Ok(CheckReply::of_certificate(check_rewriting(alloc, text)?)),
        None => Ok(CheckReply::of_proof(check_proof(alloc, bytes)?)),
    }
}

/// An input has at most one reply.
pub fn input_has_one_reply()
    ensures { OneInputReply }
{}
