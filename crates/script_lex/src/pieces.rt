//! The longest piece that stands first in some bytes: a token, a
//! blank or a comment.

ghost use Rattle.std.specs.Prelude.{◌≡◌, ◌<◌, length, slice_index, MatchOption, false, true, [], ◌∷◌, ◌==◌, if◌then◌else◌};
ghost use Rattle.script_lex.specs.TokenParts.{Found, EndsQuoted, is_single, step_of};
ghost use Rattle.script_lex.specs.Tokens.{symbol_bytes};

use crate::bytes::{Class, is_in, run_length};
use crate::{Span, Symbol, TokenKind};

/// What a piece of a text is.
#[derive(Clone, Copy)]
pub enum PieceKind {
    /// One blank.
    Blank,
    Comment,
    Token(TokenKind),
}

/// A piece of a text.
#[derive(Clone, Copy)]
pub struct Piece {
    pub kind: PieceKind,
    pub span: Span,
}

/// What begins with a dash.
fn dash(bytes: &[u8]) -> Option<(PieceKind, usize)>
    requires some { 0 < length bytes.now }
    requires first { slice_index bytes.now 0 ≡ 45 }
    ensures { Found bytes.now result }
{
    if bytes.len() == 1 {
        return None;
    }
    if bytes[1] == b'-' {
        let more = run_length(Class::NotLineFeed, &bytes[2..]);
        return Some((PieceKind::Comment, more + 2));
    }
    if is_in(Class::Digit, bytes[1]) {
        let more = run_length(Class::Digit, &bytes[2..]);
        return Some((PieceKind::Token(TokenKind::Int), more + 2));
    }
    None
}

/// What begins with `<`.
fn less(bytes: &[u8]) -> Option<(PieceKind, usize)>
    requires some { 0 < length bytes.now }
    requires first { slice_index bytes.now 0 ≡ 60 }
    ensures { Found bytes.now result }
{
    if bytes.len() > 1 {
        if bytes[1] == b'=' {
            return Some((PieceKind::Token(TokenKind::Sym(Symbol::Le)), 2));
        }
        if bytes[1] == b'>' {
            return Some((PieceKind::Token(TokenKind::Sym(Symbol::Ne)), 2));
        }
    }
    Some((PieceKind::Token(TokenKind::Sym(Symbol::Lt)), 1))
}

/// What begins with `>`.
fn greater(bytes: &[u8]) -> Option<(PieceKind, usize)>
    requires some { 0 < length bytes.now }
    requires first { slice_index bytes.now 0 ≡ 62 }
    ensures { Found bytes.now result }
{
    if bytes.len() > 1 && bytes[1] == b'=' {
        return Some((PieceKind::Token(TokenKind::Sym(Symbol::Ge)), 2));
    }
    Some((PieceKind::Token(TokenKind::Sym(Symbol::Gt)), 1))
}

/// The symbol of a byte with which no other begins.
fn single(byte: u8) -> Option<Symbol>
    ensures { MatchOption result (is_single byte ≡ false) (λ s. (symbol_bytes s ≡ byte ∷ []) × (is_single byte ≡ true)) }
{
    match byte {
        b'(' => Some(Symbol::Open),
        b')' => Some(Symbol::Close),
        b',' => Some(Symbol::Comma),
        b'.' => Some(Symbol::Dot),
        b'=' => Some(Symbol::Eq),
        _ => None,
    }
}

/// Whether a text is still open after one more byte, where the byte belongs to it.
fn still_open(inside: bool, byte: u8) -> Option<bool>
    ensures { result ≡ step_of inside byte }
{
    if byte == b'\'' {
        return Some(!inside);
    }
    if inside { Some(true) } else { None }
}

/// How many bytes end the text so far.
fn end_so_far(inside: bool, last: usize, here: usize) -> usize
    ensures { result ≡ (if inside then last else here) }
{
    if inside { last } else { here }
}

/// How many of the bytes behind a quote belong to the longest text, 0 where no quote ends it.
fn quoted_length(bytes: &[u8]) -> usize
    ensures { EndsQuoted bytes.now result }
{
    let mut inside = true;
    let mut last = 0;
    for (i, byte) in bytes.iter().enumerate() {
        let Some(now) = still_open(inside, *byte) else {
            return last;
        };
        last = end_so_far(now, last, i + 1);
        inside = now;
    }
    last
}

/// The longest piece that stands first, and its length. What most pieces of an insert begin with is looked for first.
pub fn first_piece(bytes: &[u8]) -> Option<(PieceKind, usize)>
    ensures { Found bytes.now result }
{
    if bytes.is_empty() {
        return None;
    }
    let first = bytes[0];
    if is_in(Class::Digit, first) {
        let more = run_length(Class::Digit, &bytes[1..]);
        return Some((PieceKind::Token(TokenKind::Int), more + 1));
    }
    if let Some(symbol) = single(first) {
        return Some((PieceKind::Token(TokenKind::Sym(symbol)), 1));
    }
    if is_in(Class::Blank, first) {
        return Some((PieceKind::Blank, 1));
    }
    if is_in(Class::Letter, first) {
        let more = run_length(Class::WordByte, &bytes[1..]);
        return Some((PieceKind::Token(TokenKind::Word), more + 1));
    }
    if first == b'-' {
        return dash(bytes);
    }
    if first == b'<' {
        return less(bytes);
    }
    if first == b'>' {
        return greater(bytes);
    }
    if first != b'\'' {
        return None;
    }
    let count = quoted_length(&bytes[1..]);
    if count == 0 {
        return None;
    }
    Some((PieceKind::Token(TokenKind::Text), count + 1))
}
