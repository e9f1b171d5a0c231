//! Cuts bytes into lines and tokens, and reads numbers, in one pass.

ghost use Rattle.std.specs.Prelude.{◌≡◌, ◌<◌, ◌≤◌, ◌^◌, IfSome, MatchOption, None, Some, length};
ghost use Rattle.cnf_form.specs.Lines.{after_blanks, after_line, after_token, ends_token, is_blank, is_comment, is_skipped, line_of, token_of, tokens};
ghost use Rattle.cnf_form.specs.Numbers.{bounded, is_digit, number_of, signed_of, unsigned_of, without_sign};
ghost use Rattle.cnf_form.specs.Formulas.{is_lrat};
ghost use Rattle.cnf_form.specs.Scans.{NextIs, cons_token};

/// A number and whether a `-` stands before it.
#[derive(Clone, Copy)]
pub struct Signed {
    pub negative: bool,
    pub size: u64,
}

/// What is next in a line: nothing, and the bytes after the line; a number up to a limit, and the bytes
/// after it; or a token that is no such number.
#[derive(Clone, Copy)]
pub enum Next<'a> {
    End(&'a [u8]),
    Number(Signed, &'a [u8]),
    Other,
}

fn is_blank_byte(byte: u8) -> bool
    ensures { result ≡ is_blank byte }
{
    byte == b' ' || byte == b'\t' || byte == b'\r'
}

fn ends_token_byte(byte: u8) -> bool
    ensures { result ≡ ends_token byte }
{
    is_blank_byte(byte) || byte == b'\n'
}

fn is_digit_byte(byte: u8) -> bool
    ensures { result ≡ is_digit byte }
{
    !(byte < b'0') && byte < b':'
}

fn skip_blanks(mut text: &[u8]) -> &[u8]
    ensures { result.now ≡ after_blanks text.now }
{
    while let [first, rest @ ..] = text
        && is_blank_byte(*first)
    {
        text = rest;
    }
    text
}

/// The bytes after the first LF.
pub fn skip_line(mut text: &[u8]) -> &[u8]
    ensures { result.now ≡ after_line text.now }
{
    while let [first, rest @ ..] = text {
        if *first == b'\n' {
            return rest;
        }
        text = rest;
    }
    text
}

/// The greatest value that a further digit may follow: beyond it the number is past every limit.
const LAST_BEFORE_DIGIT: u64 = i64::MAX as u64 / 10;

/// The number up to a limit that digits write up to the end of a token, and the bytes from there on.
#[tactic(auto, using(crate::proofs::Digits::too_large, crate::proofs::Digits::no_digit))]
fn read_digits(text: &[u8], limit: u64) -> Option<(u64, &[u8])>
    requires { limit < 2 ^ 63 }
    ensures { MatchOption result (bounded limit (token_of text.now) ≡ None) (λ n. (bounded limit (token_of text.now) ≡ Some n.0) × (n.1.now ≡ after_token text.now) × (n.0 ≤ limit)) }
{
    let mut value = 0u64;
    let mut rest = text;
    while let [first, more @ ..] = rest
        && !ends_token_byte(*first)
    {
        if !is_digit_byte(*first) {
            return None;
        }
        if value > LAST_BEFORE_DIGIT {
            return None;
        }
        value = 10 * value + (*first - b'0') as u64;
        rest = more;
    }
    if value > limit {
        None
    } else {
        Some((value, rest))
    }
}

/// The number up to a limit that one digit or more write up to the end of a token, and the bytes from there on.
fn read_number(text: &[u8], limit: u64) -> Option<(u64, &[u8])>
    requires { limit < 2 ^ 63 }
    ensures { MatchOption result (number_of limit (token_of text.now) ≡ None) (λ n. (number_of limit (token_of text.now) ≡ Some n.0) × (n.1.now ≡ after_token text.now) × (n.0 ≤ limit)) }
{
    match text {
        [] => None,
        [first, ..] => {
            if ends_token_byte(*first) {
                None
            } else {
                read_digits(text, limit)
            }
        }
    }
}

/// The number up to a limit that digits write after an optional `-`, up to the end of a token, and the bytes from there on.
fn read_signed(text: &[u8], limit: u64) -> Option<(Signed, &[u8])>
    requires { limit < 2 ^ 63 }
    ensures { MatchOption result (signed_of limit (token_of text.now) ≡ None) (λ n. (signed_of limit (token_of text.now) ≡ Some (n.0.negative, n.0.size)) × (n.1.now ≡ after_token text.now) × (n.0.size ≤ limit)) }
{
    let (negative, digits) = match text {
        [b'-', digits @ ..] => (true, digits),
        _ => (false, text),
    };
    let (size, rest) = read_number(digits, limit)?;
    Some((Signed { negative, size }, rest))
}

/// The next number of a line that is begun.
pub fn next_number(text: &[u8], limit: u64) -> Next<'_>
    requires { limit < 2 ^ 63 }
    ensures { NextIs limit text.now result }
{
    let text = skip_blanks(text);
    match text {
        [] => Next::End(text),
        [first, rest @ ..] => {
            if *first == b'\n' {
                return Next::End(rest);
            }
            match read_signed(text, limit) {
                Some((number, rest)) => Next::Number(number, rest),
                None => Next::Other,
            }
        }
    }
}

fn skip_token(mut text: &[u8]) -> &[u8]
    ensures { result.now ≡ after_token text.now }
{
    while let [first, rest @ ..] = text
        && !ends_token_byte(*first)
    {
        text = rest;
    }
    text
}

/// The next token of a line that is begun, and the bytes after it. An empty token is none.
pub fn next_token(text: &[u8]) -> (&[u8], &[u8])
    ensures tokens { tokens (line_of text.now) ≡ cons_token result.0.now (tokens (line_of result.1.now)) }
    ensures line { after_line text.now ≡ after_line result.1.now }
    ensures shorter { length result.1.now ≤ length text.now }
    ensures whole { token_of result.0.now ≡ result.0.now }
{
    let text = skip_blanks(text);
    let rest = skip_token(text);
    (&text[..text.len() - rest.len()], rest)
}

/// A number that isn't negative; zero may have a `-`.
pub fn unsigned(number: Signed) -> Option<u64>
    ensures { result ≡ without_sign number.negative number.size }
{
    if number.negative && number.size > 0 {
        return None;
    }
    Some(number.size)
}

/// The number up to a limit that a token writes, if it isn't negative.
pub fn read_unsigned(token: &[u8], limit: u64) -> Option<u64>
    requires limit { limit < 2 ^ 63 }
    requires whole { token_of token.now ≡ token.now }
    ensures value { result ≡ unsigned_of limit token.now }
    ensures small { IfSome result (λ n. n ≤ limit) }
{
    let (number, _) = read_signed(token, limit)?;
    unsigned(number)
}

/// The first line of a text, without its LF.
fn first_line(text: &[u8]) -> &[u8]
    ensures { result.now ≡ line_of text.now }
{
    for (at, byte) in text.iter().enumerate() {
        if *byte == b'\n' {
            return &text[..at];
        }
    }
    text
}

/// Whether the first line is `lrat`, which a CR may follow.
pub fn is_lrat_line(text: &[u8]) -> bool
    ensures { result ≡ is_lrat (line_of text.now) }
{
    match text {
        [b'l', ..] => {
            let line = first_line(text);
            line == b"lrat".as_slice() || line == b"lrat\r".as_slice()
        }
        _ => false,
    }
}

/// Whether the first line is a comment.
pub fn is_comment_line(text: &[u8]) -> bool
    ensures { result ≡ is_comment (line_of text.now) }
{
    match text {
        [first, ..] => *first == b'c',
        [] => false,
    }
}

/// Whether the first line is a comment or has only blanks.
pub fn is_skipped_line(text: &[u8]) -> bool
    ensures { result ≡ is_skipped (line_of text.now) }
{
    is_comment_line(text) || next_token(text).0.is_empty()
}
