//! `demo`: the script of a size is run, and a line tells the numbers of the run.

ghost use Rattle.std.specs.Prelude.{◌≡◌, ◌≤◌, ◌++◌, ◌↔◌, ◌⊎◌, ℕ, List, Option, Some, IfOk, IsTrue, OnOk, MatchOption, length, nat_lt, codes};
ghost use Rattle.cqa_io.specs.Causes.{Rose};
ghost use Rattle.command_shell.specs.Demo.{counted, line_text, IsSize};
ghost use Rattle.command_shell.specs.declared.ending.Command.TheVariants.{Demo as DemoWord};
ghost use Rattle.case_maker.specs.declared.script.TheConstants.{GREATEST_SIZE};
ghost use Rattle.command_shell.specs.Parts.{WriteRow};
ghost use Rattle.command_shell.specs.Top.{told, Ended};
ghost use Rattle.command_shell.specs.Tallying.{InputRow, LineRow};
ghost use Rattle.cqa_model.specs.declared.limits.TheConstants.{LONGEST_INPUT};

use crate::Session;
use crate::ending::{Ending, Stop};
use crate::laws::goes_on;
use crate::pieces::run;
use crate::tally::Tally;
use case_maker::{GREATEST_SIZE, script_of};
use cqa_io::{CalmSource, Sink, write_all};
use cqa_value::{NoMemory, read_int};
use itoa::Buffer;
use std::alloc::Global;

/// The most digits of a size.
const MOST_DIGITS: usize = 6;

/// The size that some digits write. `None` where there are more than six, or they write none from 1 to the greatest.
pub fn size_of(digits: &[u8]) -> Option<u32>
    ensures { MatchOption result ((size : ℕ) → IsSize digits.now size → ⊥) (λ size. IsSize digits.now size) }
{
    if digits.len() > MOST_DIGITS {
        return None;
    }
    let number = read_int(digits)?;
    if number < 1 || number > GREATEST_SIZE as i64 {
        return None;
    }
    Some(number as u32)
}

/// Whether a run ended so that all was answered.
fn is_answered(ending: Ending) -> bool
    ensures { IsTrue result ↔ (ending ≡ Ending.Answered ⊎ ending ≡ Ending.WithRefusal) }
{
    match ending {
        Ending::Answered | Ending::WithRefusal => true,
        Ending::BadWords
        | Ending::ReadFault
        | Ending::WriteFault
        | Ending::OutOfMemory
        | Ending::TooLong => false,
    }
}

/// Answers the statements of a script, and gives the numbers of its replies.
fn tally_script(alloc: Global, session: &mut Session, script: Vec<u8>) -> Result<Tally, NoMemory>
    requires { length script.items ≤ LONGEST_INPUT }
    ensures { InputRow result session.old script.items session.new }
{
    let mut tally = Tally::new();
    let mut source = CalmSource::new(script);
    let ending = run(alloc, session, &mut source, &mut tally);
    drop(source);
    if is_answered(ending) {
        return Ok(tally);
    }
    // Neither the source nor the tally fails, and the script is within the limit.
    Err(NoMemory)
}

/// Appends words and a number.
fn append_counted(words: &str, number: u64, out: &mut Vec<u8>) -> Result<(), NoMemory>
    ensures { OnOk result (out.new.items ≡ out.old.items ++ counted words.now number) }
{
    let mut buffer = Buffer::new();
    out.extend_from_slice(words.as_bytes())?;
    out.extend_from_slice(buffer.format(number).as_bytes())?;
    Ok(())
}

/// Appends what a run of the script of a size had to do: the statements, and the rows that it left.
fn append_work(size: u32, rows: u32, tally: &Tally, out: &mut Vec<u8>) -> Result<(), NoMemory>
    ensures { OnOk result (out.new.items ≡ out.old.items ++ counted (codes "demo ") size ++ counted (codes ": statements ") tally.now.replies ++ counted (codes ", rows ") rows) }
{
    append_counted("demo ", size as u64, out)?;
    append_counted(": statements ", tally.replies, out)?;
    append_counted(", rows ", rows as u64, out)
}

/// Appends what a run came to: the certain rows, the possible ones, and the refusals.
fn append_answers(tally: &Tally, out: &mut Vec<u8>) -> Result<(), NoMemory>
    ensures { OnOk result (out.new.items ≡ out.old.items ++ counted (codes ", certain ") tally.now.certain ++ counted (codes ", possible ") tally.now.possible ++ counted (codes ", refused ") tally.now.refused ++ codes "\n") }
{
    append_counted(", certain ", tally.certain, out)?;
    append_counted(", possible ", tally.possible, out)?;
    append_counted(", refused ", tally.refused, out)?;
    out.push(b'\n')?;
    Ok(())
}

/// The line on a run of the script of a size, which left so many rows.
fn line(alloc: Global, size: u32, rows: u32, tally: &Tally) -> Result<Vec<u8>, NoMemory>
    ensures { IfOk result (λ line. line.items ≡ line_text size rows tally.now) }
{
    let mut out = Vec::new(alloc);
    append_work(size, rows, tally, &mut out)?;
    append_answers(tally, &mut out)?;
    Ok(out)
}

/// Writes the line on a run of the script of a size, which left so many rows, and says whether a statement was refused.
fn write_line<K: Sink>(
    alloc: Global,
    sink: &mut K,
    size: u32,
    rows: u32,
    tally: &Tally,
) -> Result<bool, Stop>
    ensures row { WriteRow result (Rose (K.faults sink.old) (K.faults sink.new)) (K.held sink.old) (K.held sink.new) (line_text size rows tally.now) (nat_lt 0 tally.now.refused) }
    ensures later { K.faults sink.old ≤ K.faults sink.new }
{
    let line = line(alloc, size, rows, tally)?;
    write_all(sink, line.as_slice())?;
    Ok(tally.refused > 0)
}

/// Runs the script of a size in the session, writes the line on it, and says whether a statement was refused.
fn run_script<K: Sink>(
    alloc: Global,
    session: &mut Session,
    sink: &mut K,
    size: u32,
) -> Result<bool, Stop>
    requires { (1 ≤ size) × (size ≤ GREATEST_SIZE) }
    ensures row { LineRow result (Rose (K.faults sink.old) (K.faults sink.new)) (K.held sink.old) (K.held sink.new) size session.old session.new }
    ensures later { K.faults sink.old ≤ K.faults sink.new }
{
    let script = script_of(alloc, size)?;
    let tally = tally_script(alloc, session, script)?;
    let rows = session.database().row_total();
    write_line(alloc, sink, size, rows, &tally)
}

/// Runs the script of a size in the session, and writes the line on it.
pub fn demo<K: Sink>(alloc: Global, session: &mut Session, sink: &mut K, size: u32) -> Ending
    requires { (1 ≤ size) × (size ≤ GREATEST_SIZE) }
    ensures row { (left : Option (List ℕ)) (reads : ℕ) → Ended (Some (DemoWord size)) result (told left (K.held sink.old) reads (K.faults sink.old)) (told left (K.held sink.new) reads (K.faults sink.new)) session.old session.new }
    ensures writes { K.faults sink.old ≤ K.faults sink.new }
{
    match run_script(alloc, session, sink, size) {
        Ok(false) => Ending::Answered,
        Ok(true) => Ending::WithRefusal,
        Err(stop) => {
            goes_on(session);
            Ending::from(stop)
        }
    }
}
