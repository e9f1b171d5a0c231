//! Devices over readers and writers of std.

ghost use Rattle.std.specs.Prelude.{◌≡◌, ◌<◌, ◌≤◌, IfOk, length, take};
ghost use Rattle.std.specs.Io.{ReadsAtMost};
ghost use Rattle.std.specs.Io.KnownBytes.{Appends, ReadConsumes};
ghost use Rattle.cqa_io.specs.Causes.{Counts, HasCause};
ghost use Rattle.cqa_io.specs.Standard.{errors_read, errors_written, reader_of, writer_of};

use crate::{Failed, Sink, Source};
use std::io::{Read, Write};

/// A source over a reader of std. It tells no bytes, and counts the reader's errors.
#[derive(Drop)]
pub struct StdSource<R: Read> {
    reader: R,
    faults: u64,
}

impl<R: Read> StdSource<R> {
    /// A source over a reader, of which no error is counted yet.
    pub fn new(reader: R) -> StdSource<R>
        ensures errors { errors_read result ≡ 0 }
        ensures reader { reader_of result ≡ reader }
    {
        StdSource { reader, faults: 0 }
    }
}

impl<R: Read> Source for StdSource<R> {
    ghost use Rattle.std.specs.Prelude.{None};

    ghost left = { λ _. None };

    ghost faults = { errors_read };

    fn read(&mut self, into: &mut [u8]) -> Result<usize, Failed>
        requires { 0 < length into.old }
        ensures bound { ReadsAtMost result into.new }
        ensures reader { ReadConsumes (R.remaining (reader_of self.old)) (R.remaining (reader_of self.new)) result into.new }
        ensures cause { HasCause (errors_read self.old) (errors_read self.new) result }
        ensures counted { Counts (errors_read self.old) (errors_read self.new) result }
    {
        match self.reader.read(into) {
            Ok(count) => Ok(count),
            Err(_) => {
                self.faults = self.faults.saturating_add(1);
                Err(Failed)
            }
        }
    }
}

/// A sink over a writer of std, which is flushed after each piece. It tells no bytes, and counts the
/// writer's errors and the pieces of which it takes nothing.
#[derive(Drop)]
pub struct StdSink<W: Write> {
    writer: W,
    faults: u64,
}

impl<W: Write> StdSink<W> {
    /// A sink over a writer, of which no error is counted yet.
    pub fn new(writer: W) -> StdSink<W>
        ensures errors { errors_written result ≡ 0 }
        ensures writer { writer_of result ≡ writer }
    {
        StdSink { writer, faults: 0 }
    }
}

impl<W: Write> Sink for StdSink<W> {
    ghost use Rattle.std.specs.Prelude.{None};

    ghost held = { λ _. None };

    ghost faults = { errors_written };

    fn write(&mut self, bytes: &[u8]) -> Result<usize, Failed>
        requires { 0 < length bytes.now }
        ensures some { IfOk result (λ n. 0 < n) }
        ensures bound { IfOk result (λ n. n ≤ length bytes.now) }
        ensures writer { IfOk result (λ n. Appends (W.contents (writer_of self.old)) (W.contents (writer_of self.new)) (take n bytes.now)) }
        ensures cause { HasCause (errors_written self.old) (errors_written self.new) result }
        ensures counted { Counts (errors_written self.old) (errors_written self.new) result }
    {
        if let Ok(count) = self.writer.write(bytes)
            && count > 0
            && self.writer.flush().is_ok()
        {
            return Ok(count);
        }
        self.faults = self.faults.saturating_add(1);
        Err(Failed)
    }
}
