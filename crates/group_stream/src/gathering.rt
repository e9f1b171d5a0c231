//! The lines that come, and the replies that are gathered.

ghost use Rattle.std.specs.Prelude.{◌≡◌, ◌+◌, ◌-◌, ◌^◌, ◌<◌, ◌≤◌, ◌++◌, [], IfOk, MatchOption, length, take};
ghost use Rattle.cqa_io.specs.Causes.{Rose};
ghost use Rattle.cnf_form.specs.Lines.{is_nil};
ghost use Rattle.group_stream.specs.Cuts.{IsLine, ended_line};
ghost use Rattle.group_stream.specs.Steps.{Closes, EndRow, Ends, Gathers, Judges, PieceRow, Stands};

use crate::ending::Stop;
use cqa_io::{Sink, write_all};
use cqa_value::NoMemory;
use group_text::{LONGEST_LINE, Machine, Wanted};
use std::alloc::Global;
use std::marker::Model;

/// The most bytes that are held of a line: they tell that it is too long.
const MOST_HELD: usize = LONGEST_LINE + 1;

/// So much text is gathered, in bytes, before it is handed on within a piece of the input; and so long is a piece.
pub const PIECE: usize = 65_536;

/// A machine, the first bytes of the line that is begun, and the replies that aren't handed on yet.
#[derive(Drop)]
pub struct Gathering {
    machine: Machine,
    held: Vec<u8>,
    out: Vec<u8>,
    refused: bool,
}

impl Model for Gathering {
    ghost use Rattle.group_stream.specs.Steps.{Gathered, IsHeld};

    ghost Value = { Gathered };

    ghost view = { λ g. record { machine = g.machine; held = g.held.items; out = g.out.items; refused = g.refused } };

    ghost invariant = { λ g. IsHeld g.held.items };
}

/// Appends as many bytes of a line as tell what it says.
fn append_held(held: &mut Vec<u8>, bytes: &[u8]) -> Result<(), NoMemory>
    requires { length held.old.items ≤ MOST_HELD }
    ensures { IfOk result (λ _. held.new.items ≡ held.old.items ++ take (MOST_HELD - length held.old.items) bytes.now) }
{
    let count = bytes.len().min(MOST_HELD - held.len());
    held.extend_from_slice(&bytes[..count])?;
    Ok(())
}

/// The first line of a text, and what stands behind its LF.
fn cut_line(text: &[u8]) -> Option<(&[u8], &[u8])>
    ensures { MatchOption result (IsLine text.now) (λ p. IsLine p.0.now × (text.now ≡ ended_line p.0.now ++ p.1.now)) }
{
    for (at, byte) in text.iter().enumerate() {
        if *byte == b'\n' {
            return Some((&text[..at], &text[at + 1..]));
        }
    }
    None
}

impl Gathering {
    /// A machine before the first line, for what is wanted of each group, with a budget for each search.
    pub fn new(alloc: Global, wanted: Wanted, budget: u32) -> Gathering
        ensures stands { Stands wanted budget [] [] result }
        ensures count { result.machine.number ≡ 0 }
        ensures none { result.out ≡ [] }
    {
        Gathering {
            machine: Machine::new(alloc, wanted, budget),
            held: Vec::new(alloc),
            out: Vec::new(alloc),
            refused: false,
        }
    }

    /// Whether nothing is held of a line.
    fn is_between(&self) -> bool
        ensures { result ≡ is_nil self.now.held }
    {
        self.held.is_empty()
    }

    /// Holds bytes of a line that isn't ended.
    ///
    /// # Errors
    ///
    /// `NoMemory` where memory is refused.
    fn hold(&mut self, bytes: &[u8]) -> Result<(), NoMemory>
        requires { IsLine bytes.now }
        ensures { IfOk result (λ _. self.new ≡ record self.old { held = self.old.held ++ take (MOST_HELD - length self.old.held) bytes.now }) }
    {
        match append_held(&mut self.held, bytes) {
            Ok(()) => Ok(()),
            Err(fault) => {
                self.held.clear();
                Err(fault)
            }
        }
    }

    /// Judges a whole line.
    fn judge_line(&mut self, alloc: Global, line: &[u8]) -> Result<(), NoMemory>
        requires whole { IsLine line.now }
        requires room { self.old.machine.number < 2 ^ 64 - 1 }
        ensures judged { IfOk result (λ _. Judges line.now self.old self.new) }
        ensures held { self.new.held ≡ self.old.held }
    {
        let refused = self.machine.line(alloc, line, &mut self.out)?;
        self.refused |= refused;
        Ok(())
    }

    /// Judges the line that is held.
    fn judge_held(&mut self, alloc: Global) -> Result<(), NoMemory>
        requires { self.old.machine.number < 2 ^ 64 - 1 }
        ensures judged { IfOk result (λ _. Judges self.old.held self.old self.new) }
        ensures held { IfOk result (λ _. self.new.held ≡ []) }
    {
        let refused = self
            .machine
            .line(alloc, self.held.as_slice(), &mut self.out)?;
        self.refused |= refused;
        self.held.clear();
        Ok(())
    }

    /// Judges the line that ends with these bytes, before an LF.
    ///
    /// # Errors
    ///
    /// `NoMemory` where memory is refused.
    fn end_line(&mut self, alloc: Global, bytes: &[u8]) -> Result<(), NoMemory>
        requires whole { IsLine bytes.now }
        requires room { self.old.machine.number < 2 ^ 64 - 1 }
        ensures gathers { IfOk result (λ _. Gathers self.old self.new (ended_line bytes.now)) }
        ensures count { IfOk result (λ _. self.new.machine.number ≡ self.old.machine.number + 1) }
    {
        if self.is_between() {
            return self.judge_line(alloc, bytes);
        }
        self.hold(bytes)?;
        self.judge_held(alloc)
    }

    /// Judges the last line, which no LF ends.
    fn judge_last(&mut self, alloc: Global) -> Result<(), NoMemory>
        requires { self.old.machine.number < 2 ^ 64 - 1 }
        ensures closes { IfOk result (λ _. Closes self.old self.new) }
        ensures count { IfOk result (λ _. self.new.machine.number ≤ self.old.machine.number + 1) }
    {
        if self.is_between() {
            return Ok(());
        }
        self.judge_held(alloc)
    }

    /// Judges the last line, and refuses a group that isn't ended.
    fn close(&mut self, alloc: Global) -> Result<(), NoMemory>
        requires { self.old.machine.number < 2 ^ 64 - 2 }
        ensures { IfOk result (λ _. Ends self.old self.new) }
    {
        self.judge_last(alloc)?;
        let refused = self.machine.end(&mut self.out)?;
        self.refused |= refused;
        Ok(())
    }
    /// Hands what is gathered to a sink.
    fn hand_on<K: Sink>(&mut self, sink: &mut K) -> Result<(), Stop>
        ensures row { PieceRow result (Rose (K.faults sink.old) (K.faults sink.new)) self.old self.new (K.held sink.old) (K.held sink.new) [] }
        ensures later { K.faults sink.old ≤ K.faults sink.new }
        ensures machine { self.new.machine ≡ self.old.machine }
        ensures handed { IfOk result (λ _. self.new.out ≡ []) }
    {
        write_all(sink, self.out.as_slice())?;
        self.out.clear();
        Ok(())
    }

    /// Takes a line that an LF ends, and hands on what is gathered where it is much.
    fn take_line<K: Sink>(&mut self, alloc: Global, line: &[u8], sink: &mut K) -> Result<(), Stop>
        requires whole { IsLine line.now }
        requires room { self.old.machine.number < 2 ^ 64 - 1 }
        ensures row { PieceRow result (Rose (K.faults sink.old) (K.faults sink.new)) self.old self.new (K.held sink.old) (K.held sink.new) (ended_line line.now) }
        ensures later { K.faults sink.old ≤ K.faults sink.new }
        ensures count { IfOk result (λ _. self.new.machine.number ≡ self.old.machine.number + 1) }
    {
        self.end_line(alloc, line)?;
        if self.out.len() < PIECE {
            return Ok(());
        }
        self.hand_on(sink)
    }

    /// Takes bytes without an LF at the end of a piece, and hands on what is gathered.
    fn take_rest<K: Sink>(&mut self, rest: &[u8], sink: &mut K) -> Result<(), Stop>
        requires { IsLine rest.now }
        ensures row { PieceRow result (Rose (K.faults sink.old) (K.faults sink.new)) self.old self.new (K.held sink.old) (K.held sink.new) rest.now }
        ensures later { K.faults sink.old ≤ K.faults sink.new }
        ensures count { IfOk result (λ _. self.new.machine.number ≡ self.old.machine.number) }
        ensures handed { IfOk result (λ _. self.new.out ≡ []) }
    {
        self.hold(rest)?;
        self.hand_on(sink)
    }

    /// Takes a piece of the input: each line that ends in it is judged, and the replies are handed to the sink.
    ///
    /// # Errors
    ///
    /// `Stop::WriteFault` where a write fails, and `Stop::OutOfMemory` where memory is refused.
    pub fn take_piece<K: Sink>(
        &mut self,
        alloc: Global,
        piece: &[u8],
        sink: &mut K,
    ) -> Result<(), Stop>
        requires { self.old.machine.number + length piece.now < 2 ^ 64 - 1 }
        ensures row { PieceRow result (Rose (K.faults sink.old) (K.faults sink.new)) self.old self.new (K.held sink.old) (K.held sink.new) piece.now }
        ensures later { K.faults sink.old ≤ K.faults sink.new }
        ensures count { IfOk result (λ _. self.new.machine.number ≤ self.old.machine.number + length piece.now) }
        ensures handed { IfOk result (λ _. self.new.out ≡ []) }
    {
        let mut rest = piece;
        while let Some((line, after)) = cut_line(rest) {
            self.take_line(alloc, line, sink)?;
            rest = after;
        }
        self.take_rest(rest, sink)
    }

    /// Takes the end of the input: the last line is judged, a group that isn't ended is refused, and the replies are handed to the
    /// sink. Says whether something was refused.
    ///
    /// # Errors
    ///
    /// `Stop::WriteFault` where a write fails, and `Stop::OutOfMemory` where memory is refused.
    pub fn finish<K: Sink>(&mut self, alloc: Global, sink: &mut K) -> Result<bool, Stop>
        requires { self.old.machine.number < 2 ^ 64 - 2 }
        ensures row { EndRow result (Rose (K.faults sink.old) (K.faults sink.new)) self.old (K.held sink.old) (K.held sink.new) }
        ensures later { K.faults sink.old ≤ K.faults sink.new }
    {
        self.close(alloc)?;
        write_all(sink, self.out.as_slice())?;
        Ok(self.refused)
    }
}
