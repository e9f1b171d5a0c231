//! Inputs that reach the limits, made here: the longest input of a call and the longest statement, each with a byte more, the
//! most rows of a table, and long statements that come byte by byte.

use crate::comparing::ends_as_wanted;
use crate::devices::{ANSWERED, VERIFIED, told};
use crate::running::{Case, status_of};
use cqa_io::{CountSink, Failed, Source};
use std::alloc::{AllocError, Global};
use std::io;

/// One byte more than a call reads.
const LONGER_INPUT: usize = 268_435_457;

/// One byte more than a statement may have.
const LONGER_STATEMENT: usize = 1_048_577;

/// The most rows of a table.
const MOST_ROWS: u32 = 1_000_000;

/// How often a byte stands in a long statement.
const REPEATED: usize = 1_000_000;

/// A long statement.
struct Long {
    /// Its first bytes.
    first: &'static [u8],
    /// The byte that is repeated behind them.
    byte: u8,
    /// Its last bytes.
    last: &'static [u8],
    /// The status that the call ends with.
    status: u8,
    /// The reply.
    output: &'static [u8],
}

/// A text, a comment, the line of a `copy`, and the lines of its block.
const LONG: [Long; 4] = [
    Long {
        first: b"a '",
        byte: b'b',
        last: b"';\n",
        status: 1,
        output: b"error 2 Syntax at 0\n",
    },
    Long {
        first: b"-- ",
        byte: b'b',
        last: b"\nshow tables;\n",
        status: 0,
        output: b"0 tables\n",
    },
    Long {
        first: b"copy;",
        byte: b' ',
        last: b"\n\\.\n",
        status: 1,
        output: b"error 2 Syntax at 4\n",
    },
    Long {
        first: b"copy;\n",
        byte: b'\n',
        last: b"\\.\n",
        status: 1,
        output: b"error 2 Syntax at 4\n",
    },
];

/// A source that gives so many spaces, and holds none of them.
#[derive(Drop)]
struct Spaces {
    left: usize,
}

impl Source for Spaces {
    ghost use Rattle.std.specs.Prelude.{◌<◌, None, length};
    ghost use Rattle.std.specs.Io.{ReadsAtMost};
    ghost use Rattle.cqa_io.specs.Causes.{HasCause};

    ghost left = { λ _. None };

    ghost faults = { λ _. 0 };

    fn read(&mut self, into: &mut [u8]) -> Result<usize, Failed>
        requires { 0 < length into.old }
        ensures bound { ReadsAtMost result into.new }
        ensures cause { HasCause 0 0 result }
    {
        let count = into.len().min(self.left);
        into[..count].fill(b' ');
        self.left -= count;
        Ok(count)
    }
}

/// Whether a longer input ends `check` with its status, and nothing is written.
fn ends_on_a_longer_input(alloc: Global) -> Result<bool, AllocError> {
    let mut source = Spaces { left: LONGER_INPUT };
    let mut sink = CountSink::new();
    let status = status_of(alloc, &VERIFIED, &mut source, &mut sink)?;
    Ok(status == 6 && sink.count() == 0)
}

/// Whether a longer statement is refused.
fn refuses_a_longer_statement(rt: &HostRuntime) -> io::Result<bool> {
    let mut text = vec![in rt.alloc(); b'x'; LONGER_STATEMENT]?;
    text.extend_from_slice(b";\n")?;
    let case = Case {
        input: text.as_slice(),
        piece: 65_536,
        status: 1,
        output: b"error 3 StatementTooLong 1048577\n",
        ..ANSWERED
    };
    ends_as_wanted(rt, "a longer statement", &case)
}

/// Appends a line with a number.
fn append_line(alloc: Global, text: &mut Vec<u8>, number: u32) -> Result<(), AllocError> {
    let line = format!(in alloc; "{number}\n")?;
    let done = text.extend_from_slice(line.as_bytes());
    drop(line);
    done
}

/// Appends a script that fills a table, and then adds a row and one that is there.
fn append_full_table(alloc: Global, text: &mut Vec<u8>) -> Result<(), AllocError> {
    text.extend_from_slice(b"create table m (x int, primary key (x));\ncopy m;\n")?;
    for number in 1..=MOST_ROWS {
        append_line(alloc, text, number)?;
    }
    text.extend_from_slice(b"\\.\ninsert into m values (1000001);\ninsert into m values (1);\n")
}

/// Whether a table takes the most rows and no row more.
fn fills_a_table(rt: &HostRuntime) -> io::Result<bool> {
    let mut text = Vec::new(rt.alloc());
    append_full_table(rt.alloc(), &mut text)?;
    let case = Case {
        input: text.as_slice(),
        piece: 65_536,
        status: 1,
        output: b"created m\ncopied 1000000\nerror 16 Limit rows 1000000\ninserted 0\n",
        ..ANSWERED
    };
    ends_as_wanted(rt, "a full table", &case)
}

/// The bytes of a long statement.
fn long_text(alloc: Global, long: &Long) -> Result<Vec<u8>, AllocError> {
    let repeated = vec![in alloc; long.byte; REPEATED]?;
    let mut text = Vec::from_slice(alloc, long.first)?;
    text.extend_from_slice(repeated.as_slice())?;
    text.extend_from_slice(long.last)?;
    Ok(text)
}

/// Whether a text that comes byte by byte is answered so.
fn is_answered<'a>(
    rt: &HostRuntime,
    text: &'a [u8],
    output: &'a [u8],
    status: u8,
) -> io::Result<bool> {
    let case = Case {
        input: text,
        piece: 1,
        status,
        output,
        ..ANSWERED
    };
    ends_as_wanted(rt, "a long statement", &case)
}

/// Whether a long statement is answered that comes byte by byte. One that is looked at from its beginning again for each byte
/// would take hours.
fn answers_byte_by_byte(rt: &HostRuntime, long: &Long) -> io::Result<bool> {
    let text = long_text(rt.alloc(), long)?;
    is_answered(rt, text.as_slice(), long.output, long.status)
}

/// Whether all limits are kept. A line says which isn't.
pub fn all_pass(rt: &HostRuntime) -> io::Result<bool> {
    let ends = ends_on_a_longer_input(rt.alloc())?;
    let mut pass = told(rt, ends, "a longer input ends otherwise")?;
    for long in &LONG {
        pass &= answers_byte_by_byte(rt, long)?;
    }
    Ok(refuses_a_longer_statement(rt)? && fills_a_table(rt)? && pass)
}
