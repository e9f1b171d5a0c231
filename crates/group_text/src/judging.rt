//! The reply to a group.

ghost use Rattle.std.specs.Prelude.{◌≡◌, ◌↔◌, ◌∷◌, [], false, true, IfOk};
ghost use Rattle.proof_check.specs.Verdicts.{Checks};
ghost use Rattle.proof_check.specs.declared.reply.ProofReply.TheVariants.{Verified};
ghost use Rattle.group_text.specs.declared.wanted.Wanted.TheVariants.{Reasons, Verdicts};
ghost use Rattle.group_text.specs.Groups.Event.{Judge};
ghost use Rattle.group_text.specs.Replies.{Appends, IsShown};

use crate::group::Group;
use crate::ranging::reply_range;
use crate::reply::{append_open, append_refused, certain_text};
use crate::{Fault, Wanted};
use block_lists::{Judged, Proved, Room};
use cnf_form::{Cnf, Log};
use cqa_value::NoMemory;
use proof_check::check_proof;
use std::alloc::Global;

/// Judges a group, appends the reply, and says whether it is a refusal, of the line of this number.
///
/// # Errors
///
/// `NoMemory` where memory is refused.
fn reply_judged(
    alloc: Global,
    group: &Group,
    budget: u32,
    line: u64,
    room: &mut Room,
    out: &mut Vec<u8>,
) -> Result<bool, NoMemory>
    ensures { IfOk result (λ refused. Appends Verdicts budget (Judge line group.now ∷ []) refused out.old.items out.new.items) }
{
    match group.judge(alloc, budget, room)? {
        Judged::Certain => {
            out.extend_from_slice(b"certain\n")?;
            Ok(false)
        }
        Judged::Open => {
            append_open(room.choice.as_slice(), out)?;
            Ok(false)
        }
        Judged::Spent => {
            append_refused(line, Fault::Spent(budget), out)?;
            Ok(true)
        }
    }
}

/// Whether a text is verified: a formula, the line `lrat` and a log that refutes it.
fn is_checked(alloc: Global, text: &[u8]) -> Result<bool, NoMemory>
    ensures { IfOk result (λ yes. yes ≡ true ↔ Checks text.now Verified) }
{
    let reply = check_proof(alloc, text)?;
    Ok(reply.is_verified())
}

/// Appends a formula and a log where they are verified as they are written, and says whether they are refused.
fn reply_refuted(
    alloc: Global,
    cnf: &Cnf,
    log: &Log,
    line: u64,
    out: &mut Vec<u8>,
) -> Result<bool, NoMemory>
    ensures { IfOk result (λ refused. IsShown line (record { cnf = cnf.now; log = log.now }) refused out.old.items out.new.items) }
{
    let text = certain_text(alloc, cnf, log)?;
    if is_checked(alloc, text.as_slice())? {
        out.extend_from_slice(text.as_slice())?;
        Ok(false)
    } else {
        append_refused(line, Fault::Unverified, out)?;
        Ok(true)
    }
}

/// The same as [`reply_judged`], with reasons.
///
/// # Errors
///
/// `NoMemory` where memory is refused.
fn reply_proved(
    alloc: Global,
    group: &Group,
    budget: u32,
    line: u64,
    room: &mut Room,
    out: &mut Vec<u8>,
) -> Result<bool, NoMemory>
    ensures { IfOk result (λ refused. Appends Reasons budget (Judge line group.now ∷ []) refused out.old.items out.new.items) }
{
    match group.prove(alloc, budget, room)? {
        Proved::Refuted { cnf, log } => {
            let replied = reply_refuted(alloc, &cnf, &log, line, out);
            drop(log);
            drop(cnf);
            replied
        }
        Proved::Open => {
            append_open(room.choice.as_slice(), out)?;
            Ok(false)
        }
        Proved::Spent => {
            append_refused(line, Fault::Spent(budget), out)?;
            Ok(true)
        }
    }
}

/// Appends what is wanted of a group, and says whether it is a refusal, of the line of this number.
///
/// # Errors
///
/// `NoMemory` where memory is refused.
pub fn reply_wanted(
    alloc: Global,
    wanted: Wanted,
    group: &Group,
    budget: u32,
    line: u64,
    room: &mut Room,
    out: &mut Vec<u8>,
) -> Result<bool, NoMemory>
    ensures { IfOk result (λ refused. Appends wanted budget (Judge line group.now ∷ []) refused out.old.items out.new.items) }
{
    match wanted {
        Wanted::Verdicts => reply_judged(alloc, group, budget, line, room, out),
        Wanted::Reasons => reply_proved(alloc, group, budget, line, room, out),
        Wanted::Ranges => reply_range(alloc, group, budget, line, out),
    }
}
