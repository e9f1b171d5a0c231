//! The block of a `copy`: whether a text has one, where it begins
//! and which line ends it.

ghost use Rattle.std.specs.Prelude.{IsTrue, ◌↔◌, MatchOption};
ghost use Rattle.script_lex.specs.ScriptParts.{SkipsAt, LinesSoFar, StandAt, BlockEndsAt, HasNoBlock};
ghost use Rattle.script_lex.specs.Bytes.{Runs};
ghost use Rattle.script_lex.specs.Scripts.{IsCopy, IsEndingLine};

use crate::bytes::{Class, is_in};

/// Where a block ends, and where the first byte after its ending line is.
#[derive(Clone, Copy)]
pub struct BlockEnd {
    pub at: usize,
    pub rest: usize,
}

/// Whether a statement's text begins with the word copy.
pub fn is_copy(text: &[u8]) -> bool
    ensures { IsTrue result ↔ IsCopy text.now }
{
    text.starts_with(b"copy") && (text.len() == 4 || !is_in(Class::WordByte, text[4]))
}

/// How many bytes are skipped before a block that so many blanks stand before: the rest of a line that is blank, or none.
pub fn skipped_length(bytes: &[u8], blanks: usize) -> usize
    requires { Runs Class.LineBlank bytes.now blanks }
    ensures { SkipsAt bytes.now result }
{
    if blanks < bytes.len() && bytes[blanks] == b'\n' {
        blanks + 1
    } else {
        0
    }
}

fn is_ending_line(line: &[u8]) -> bool
    ensures { IsTrue result ↔ IsEndingLine line.now }
{
    line == b"\\.".as_slice() || line == b"\\.\r".as_slice()
}

/// How far a block is known: where its last line begins, and how many bytes have been looked at.
#[derive(Clone, Copy)]
pub struct Lines {
    pub line: usize,
    pub seen: usize,
}

/// The first line from a known place on that ends the block, up to its line feed, or the end.
pub fn lines_on(bytes: &[u8], known: Lines) -> Lines
    requires { LinesSoFar bytes.now known.line known.seen }
    ensures { StandAt bytes.now result }
{
    let mut line = known.line;
    let mut seen = known.seen;
    while seen < bytes.len() {
        if bytes[seen] == b'\n' {
            if is_ending_line(&bytes[line..seen]) {
                return Lines { line, seen };
            }
            line = seen + 1;
        }
        seen += 1;
    }
    Lines { line, seen }
}

/// Where the block ends whose lines have been looked at. At the end of an input that has ended, its ending line needs no line feed.
pub fn block_end(bytes: &[u8], at_end: bool, lines: Lines) -> Option<BlockEnd>
    requires { StandAt bytes.now lines }
    ensures { MatchOption result (HasNoBlock at_end bytes.now) (BlockEndsAt at_end bytes.now) }
{
    if lines.seen < bytes.len() {
        return Some(BlockEnd {
            at: lines.line,
            rest: lines.seen + 1,
        });
    }
    if at_end && is_ending_line(&bytes[lines.line..]) {
        return Some(BlockEnd {
            at: lines.line,
            rest: bytes.len(),
        });
    }
    None
}
