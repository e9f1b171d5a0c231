//! What a line says by itself.

ghost use Rattle.std.specs.Prelude.{◌≡◌};
ghost use Rattle.cnf_form.specs.Lines.{line_of, tokens};
ghost use Rattle.cnf_form.specs.Scans.{cons_token};
ghost use Rattle.group_text.specs.Saying.{ends, is_word, said, said_by, said_within};
ghost use Rattle.group_text.specs.Sayings.{Says};

use crate::Fault;
use crate::limits::LONGEST_LINE;
use cnf_form::scan::{is_comment_line, next_token};

/// What a line says, with the bytes behind its first token where they say more.
#[derive(Clone, Copy)]
pub enum Saying<'a> {
    /// Nothing.
    Skipped,
    /// A group begins, whose sizes these bytes tell.
    Begins(&'a [u8]),
    /// A group begins by a line that is too long.
    BeginsLong,
    /// A list, whose rows these bytes name.
    List(&'a [u8]),
    /// A group ends.
    Ends,
    /// The line is faulty.
    Faulty(Fault),
}

/// Whether a token is this byte.
pub fn is_word(token: &[u8], word: u8) -> bool
    ensures { result ≡ is_word word token.now }
{
    match token {
        [byte] => *byte == word,
        _ => false,
    }
}

/// What the end of a group says, with what stands behind it.
fn read_end(rest: &[u8]) -> Saying<'_>
    ensures { Says (ends (tokens (line_of rest.now))) result }
{
    if next_token(rest).0.is_empty() {
        Saying::Ends
    } else {
        Saying::Faulty(Fault::BadLine)
    }
}

/// What a first token says, and what stands behind it. An empty token is none.
fn read_words<'a>(token: &[u8], rest: &'a [u8]) -> Saying<'a>
    ensures { Says (said_by (cons_token token.now (tokens (line_of rest.now)))) result }
{
    if token.is_empty() {
        Saying::Skipped
    } else if is_word(token, b'l') {
        Saying::List(rest)
    } else if is_word(token, b'g') {
        Saying::Begins(rest)
    } else if is_word(token, b'e') {
        read_end(rest)
    } else {
        Saying::Faulty(Fault::BadLine)
    }
}

/// What a line says that is too long, by as many of its bytes as are allowed.
fn read_long(front: &[u8]) -> Saying<'_>
    requires { line_of front.now ≡ front.now }
    ensures { Says (said_within front.now) result }
{
    if is_word(next_token(front).0, b'g') {
        Saying::BeginsLong
    } else {
        Saying::Faulty(Fault::LongLine)
    }
}

/// What a line says.
pub fn read_line(line: &[u8]) -> Saying<'_>
    requires { line_of line.now ≡ line.now }
    ensures { Says (said line.now) result }
{
    if is_comment_line(line) {
        return Saying::Skipped;
    }
    if line.len() > LONGEST_LINE {
        return read_long(&line[..LONGEST_LINE]);
    }
    let (token, rest) = next_token(line);
    read_words(token, rest)
}
