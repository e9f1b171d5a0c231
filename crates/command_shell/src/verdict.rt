//! The line of `check` on an input.

ghost use Rattle.std.specs.Prelude.{◌≤◌, length};
ghost use Rattle.cqa_io.specs.Causes.{Rose};
ghost use Rattle.cqa_model.specs.declared.limits.TheConstants.{LONGEST_INPUT};
ghost use Rattle.input_check.specs.Verdicts.{input_line, is_shown};
ghost use Rattle.command_shell.specs.Parts.{WriteRow, VerdictRow};

use crate::ending::Stop;
use cqa_io::{Sink, write_all};
use input_check::{CheckReply, check_bytes};
use std::alloc::Global;

/// Writes the line on an input that is a formula with a log or a certificate, and says whether it is verified.
pub fn write_verdict<K: Sink>(alloc: Global, sink: &mut K, input: &[u8]) -> Result<bool, Stop>
    requires short { length input.now ≤ LONGEST_INPUT }
    ensures row { VerdictRow result (Rose (K.faults sink.old) (K.faults sink.new)) (K.held sink.old) (K.held sink.new) input.now }
    ensures later { K.faults sink.old ≤ K.faults sink.new }
{
    let reply = check_bytes(alloc, input)?;
    write_line(alloc, sink, reply)
}

/// Writes the line of a reply, and says whether it is that of an input that is verified.
fn write_line<K: Sink>(alloc: Global, sink: &mut K, reply: CheckReply) -> Result<bool, Stop>
    ensures row { WriteRow result (Rose (K.faults sink.old) (K.faults sink.new)) (K.held sink.old) (K.held sink.new) (input_line reply) (is_shown reply) }
    ensures later { K.faults sink.old ≤ K.faults sink.new }
{
    let line = reply.line(alloc)?;
    write_all(sink, line.as_bytes())?;
    Ok(reply.is_verified())
}
