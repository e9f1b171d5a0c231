//! From the bytes of a script to its first statement.
//! What earlier looks at the bytes have found is known, so that no byte is looked at twice.

ghost use Rattle.std.specs.Prelude.{◌≡◌, ◌≤◌, length, take, drop, MatchOption};
ghost use Rattle.script_lex.specs.declared.cutting.Cut.{Cut};
ghost use Rattle.script_lex.specs.Bytes.{is_line_blank, AllPass, Runs};
ghost use Rattle.script_lex.specs.ScriptParts.{BeginsAt, EndsAt, HasNoEnd, Stands, Reaches, LinesSoFar, StandAt};
ghost use Rattle.script_lex.specs.Progress.{KnowsText, KnowsBlanks, KnowsLines, Holds, unknown};
ghost use Rattle.script_lex.specs.Scripts.{IsSpace, IsCut};

use crate::blocks::{Lines, block_end, is_copy, lines_on, skipped_length};
use crate::bytes::{Class, run_on};
use crate::modes::{Mode, Region, Stop, region_on};
use crate::{Cut, Span};

/// What is known of a statement's text that begins at a place: how far its bytes have been looked at.
#[derive(Clone, Copy)]
pub struct Reached {
    pub from: usize,
    pub stop: Stop,
}

/// So many blanks of one line stand at a place.
#[derive(Clone, Copy)]
pub struct Blanks {
    pub from: usize,
    pub count: usize,
}

/// What is known of a block that begins at a place.
#[derive(Clone, Copy)]
pub struct Block {
    pub from: usize,
    pub lines: Lines,
}

/// What is known of the bytes of a script: how far each look at them has come.
#[derive(Clone, Copy)]
pub struct Known {
    pub gap: Stop,
    pub text: Reached,
    pub blanks: Blanks,
    pub block: Block,
}

/// The place before all bytes.
const START: Stop = Stop {
    at: 0,
    mode: Mode::Outside,
};

impl Known {
    /// Nothing is known yet.
    pub fn new() -> Known
        ensures { result ≡ unknown }
    {
        Known {
            gap: START,
            text: Reached {
                from: 0,
                stop: START,
            },
            blanks: Blanks { from: 0, count: 0 },
            block: Block {
                from: 0,
                lines: Lines { line: 0, seen: 0 },
            },
        }
    }
}

/// The place of the first byte after blanks and comments.
fn text_start(bytes: &[u8], stop: Stop) -> Option<usize>
    requires { Stands Region.Gap bytes.now stop }
    ensures { MatchOption result (IsSpace bytes.now) (BeginsAt bytes.now) }
{
    match stop.mode {
        Mode::Dash => Some(stop.at - 1),
        _ => {
            if stop.at == bytes.len() {
                None
            } else {
                Some(stop.at)
            }
        }
    }
}

/// How far the text that begins at a place is known.
fn known_text(bytes: &[u8], from: usize, known: Reached) -> Stop
    requires within { from ≤ length bytes.now }
    requires known { KnowsText bytes.now known }
    ensures { Reaches Region.Statement (drop from bytes.now) result }
{
    if known.from == from {
        known.stop
    } else {
        START
    }
}

/// How many of the blanks at a place are known.
fn known_blanks(bytes: &[u8], from: usize, known: Blanks) -> usize
    requires within { from ≤ length bytes.now }
    requires known { KnowsBlanks bytes.now known }
    ensures few { result ≤ length (drop from bytes.now) }
    ensures each { AllPass is_line_blank (take result (drop from bytes.now)) }
{
    if known.from == from { known.count } else { 0 }
}

/// How far the block that begins at a place is known.
fn known_lines(bytes: &[u8], from: usize, known: Block) -> Lines
    requires within { from ≤ length bytes.now }
    requires known { KnowsLines bytes.now known }
    ensures { LinesSoFar (drop from bytes.now) result.line result.seen }
{
    if known.from == from {
        known.lines
    } else {
        Lines { line: 0, seen: 0 }
    }
}

/// The first byte that doesn't belong to the text that begins at a place.
fn text_on(bytes: &[u8], from: usize, known: Reached) -> Reached
    requires within { from ≤ length bytes.now }
    requires known { KnowsText bytes.now known }
    ensures from { result.from ≡ from }
    ensures stands { Stands Region.Statement (drop from bytes.now) result.stop }
{
    let stop = known_text(bytes, from, known);
    Reached {
        from,
        stop: region_on(Region::Statement, &bytes[from..], stop),
    }
}

/// The blanks that stand at a place.
fn blanks_on(bytes: &[u8], from: usize, known: Blanks) -> Blanks
    requires within { from ≤ length bytes.now }
    requires known { KnowsBlanks bytes.now known }
    ensures from { result.from ≡ from }
    ensures runs { Runs Class.LineBlank (drop from bytes.now) result.count }
{
    let count = known_blanks(bytes, from, known);
    Blanks {
        from,
        count: run_on(Class::LineBlank, &bytes[from..], count),
    }
}

/// The lines of the block that begins at a place.
fn block_on(bytes: &[u8], from: usize, known: Block) -> Block
    requires within { from ≤ length bytes.now }
    requires known { KnowsLines bytes.now known }
    ensures from { result.from ≡ from }
    ensures stand { StandAt (drop from bytes.now) result.lines }
{
    let lines = known_lines(bytes, from, known);
    Block {
        from,
        lines: lines_on(&bytes[from..], lines),
    }
}

/// The place of the first `;` outside texts and comments.
fn text_end(bytes: &[u8], stop: Stop) -> Option<usize>
    requires { Stands Region.Statement bytes.now stop }
    ensures { MatchOption result (HasNoEnd bytes.now) (EndsAt bytes.now) }
{
    if stop.at == bytes.len() {
        None
    } else {
        Some(stop.at)
    }
}

/// What stands first in the bytes of a script, and how far it was looked for. What is known is not looked at again.
pub fn cut_on(bytes: &[u8], at_end: bool, known: &mut Known) -> Cut
    requires { Holds bytes.now known.old }
    ensures first { IsCut at_end bytes.now result }
    ensures holds { Holds bytes.now known.new }
{
    known.gap = region_on(Region::Gap, bytes, known.gap);
    let Some(from) = text_start(bytes, known.gap) else {
        return Cut::Blank;
    };
    known.text = text_on(bytes, from, known.text);
    let Some(count) = text_end(&bytes[from..], known.text.stop) else {
        return Cut::Part;
    };
    let to = from + count;
    let text = Span { from, to };
    if !is_copy(&bytes[from..to]) {
        return Cut::Statement {
            text,
            block: None,
            rest: to + 1,
        };
    }
    known.blanks = blanks_on(bytes, to + 1, known.blanks);
    let start = to + 1 + skipped_length(&bytes[to + 1..], known.blanks.count);
    known.block = block_on(bytes, start, known.block);
    match block_end(&bytes[start..], at_end, known.block.lines) {
        Some(end) => Cut::Statement {
            text,
            block: Some(Span {
                from: start,
                to: start + end.at,
            }),
            rest: start + end.rest,
        },
        None => Cut::Part,
    }
}

/// What stands first in the bytes of a script; `at_end` says that it ends with them.
///
/// Blanks and comments are skipped. A statement's text goes up to the first `;` outside texts and comments.
/// Where it begins with the word `copy`, a block follows: the lines up to one that is `\.`, apart from the rest of the line of the `;` where that is blank.
/// Spans and the rest are places in `bytes`.
pub fn cut(bytes: &[u8], at_end: bool) -> Cut
    // The answer is the first statement with its places, or says why there is none.
    ensures first { IsCut at_end bytes.now result }
    // No other answer is right.
    ensures only { (other : Cut) → IsCut at_end bytes.now other → other ≡ result }
{
    cut_on(bytes, at_end, &mut Known::new())
}
