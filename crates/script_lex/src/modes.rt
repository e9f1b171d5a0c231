//! Texts and comments, where a `;` ends no statement: a walk that
//! knows at each byte whether it stands in one.

ghost use Rattle.std.specs.Prelude.{◌≡◌};
ghost use Rattle.script_lex.specs.ScriptParts.{passes_in, Reaches, Stands, Stays};
ghost use Rattle.script_lex.specs.Scripts.{after};

use crate::bytes::{Class, is_in, run_length};

/// Where a byte of a script stands.
#[derive(Clone, Copy)]
pub enum Mode {
    /// Outside texts and comments.
    Outside,
    /// There too, behind a dash that may begin a comment.
    Dash,
    Text,
    Comment,
}

/// A part of a script.
#[derive(Clone, Copy)]
pub enum Region {
    /// Blanks and comments.
    Gap,
    /// A statement without its `;`.
    Statement,
}

/// A place and its mode.
#[derive(Clone, Copy)]
pub struct Stop {
    pub at: usize,
    pub mode: Mode,
}

/// The mode after one more byte.
fn next_mode(mode: Mode, byte: u8) -> Mode
    ensures { result ≡ after mode byte }
{
    match mode {
        Mode::Outside => match byte {
            b'\'' => Mode::Text,
            b'-' => Mode::Dash,
            _ => Mode::Outside,
        },
        Mode::Dash => match byte {
            b'\'' => Mode::Text,
            b'-' => Mode::Comment,
            _ => Mode::Outside,
        },
        Mode::Text => {
            if byte == b'\'' {
                Mode::Outside
            } else {
                Mode::Text
            }
        }
        Mode::Comment => {
            if byte == b'\n' {
                Mode::Outside
            } else {
                Mode::Comment
            }
        }
    }
}

/// Whether a byte belongs to the region.
fn belongs(region: Region, mode: Mode, byte: u8) -> bool
    ensures { result ≡ passes_in region mode byte }
{
    match region {
        Region::Gap => match mode {
            Mode::Outside => is_in(Class::Blank, byte) || byte == b'-',
            Mode::Dash => byte == b'-',
            Mode::Text => false,
            Mode::Comment => true,
        },
        Region::Statement => match mode {
            Mode::Outside | Mode::Dash => byte != b';',
            Mode::Text | Mode::Comment => true,
        },
    }
}

/// How many bytes at the front surely leave the mode of a statement as it is: of those bytes that are the most of a script.
fn staying(region: Region, mode: Mode, bytes: &[u8]) -> usize
    ensures { Stays region mode bytes.now result }
{
    match region {
        Region::Gap => 0,
        Region::Statement => match mode {
            Mode::Outside => run_length(Class::Plain, bytes),
            Mode::Text => run_length(Class::NotQuote, bytes),
            Mode::Dash | Mode::Comment => 0,
        },
    }
}

/// The first byte from a known place on that doesn't belong to a region, or the end.
pub fn region_on(region: Region, bytes: &[u8], known: Stop) -> Stop
    requires { Reaches region bytes.now known }
    ensures { Stands region bytes.now result }
{
    let mut mode = known.mode;
    let mut at = known.at + staying(region, mode, &bytes[known.at..]);
    while at < bytes.len() {
        if !belongs(region, mode, bytes[at]) {
            return Stop { at, mode };
        }
        mode = next_mode(mode, bytes[at]);
        let next = at + 1;
        at = next + staying(region, mode, &bytes[next..]);
    }
    Stop { at, mode }
}
