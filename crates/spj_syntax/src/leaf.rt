//! The leaves of a statement: names, texts and integers.
//! One that is out of its limits is read as a placeholder, since a fault of syntax behind it is told first;
//! the parser then finds the first such token, and gives no statement.

ghost use Rattle.std.specs.Prelude.{◌≡◌, ◌≤◌, ◌<◌, ◌∷◌, slice_index, IfOk, IsTrue, ◌↔◌, length, drop, true};
ghost use Rattle.std.specs.Str.{IsUtf8};
ghost use Rattle.script_lex.specs.declared.kinds.TokenKind.TheVariants as token;
ghost use Rattle.script_lex.specs.Tokens.{IsToken};
ghost use Rattle.spj_syntax.specs.Lexemes.{Word, undoubled};
ghost use Rattle.spj_syntax.specs.Shapes.{name, matches};
ghost use Rattle.cqa_model.specs.Valid.{IsName};
ghost use Rattle.cqa_value.specs.declared.name.TheConstants.{LONGEST_TEXT_VALUE};
ghost use Rattle.cqa_model.specs.declared.limits.TheConstants.{LONGEST_NAME};
ghost use Rattle.cqa_value.specs.Literals.{are_digits, without_minus, is_in_range, integer_of};

use cqa_model::LONGEST_NAME;
use cqa_value::{Fail, LONGEST_TEXT_VALUE, Name, NoMemory, Value, read_int};
use std::alloc::Global;

/// The word where it isn't too long, else any name.
pub fn kept_word(word: &[u8]) -> &[u8]
    requires word { IsToken token.Word word.now }
    requires allowed { matches name (Word word.now) ≡ true }
    ensures named { IsName result.now }
    ensures utf8 { IsUtf8 result.now }
    ensures same { length word.now ≤ LONGEST_NAME → result.now ≡ word.now }
{
    if word.len() <= LONGEST_NAME {
        word
    } else {
        b"_"
    }
}

/// The bytes where they aren't too many, else none.
fn kept(bytes: &[u8]) -> &[u8]
    requires { IsUtf8 bytes.now }
    ensures utf8 { IsUtf8 result.now }
    ensures short { length result.now ≤ LONGEST_TEXT_VALUE }
    ensures same { length bytes.now ≤ LONGEST_TEXT_VALUE → result.now ≡ bytes.now }
{
    if bytes.len() <= LONGEST_TEXT_VALUE {
        bytes
    } else {
        b""
    }
}

/// The bytes as a name where they aren't too many, else any name.
pub fn short_name(alloc: Global, bytes: &[u8]) -> Result<Name, NoMemory>
    requires { IsUtf8 bytes.now }
    ensures { IfOk result (λ n. length bytes.now ≤ LONGEST_TEXT_VALUE → n ≡ bytes.now) }
{
    match Name::from_bytes(alloc, kept(bytes)) {
        Ok(name) => Ok(name),
        Err(Fail::NoMemory) => Err(NoMemory),
        Err(Fail::Refused(_)) => unreachable!(),
    }
}

/// Where the next byte of a text's value stands: behind this byte, or behind this quote and the next.
fn next(bytes: &[u8], at: usize) -> usize
    requires { at < length bytes.now }
    ensures further { at < result }
    ensures within { result ≤ length bytes.now }
    ensures value { undoubled (drop at bytes.now) ≡ slice_index bytes.now at ∷ undoubled (drop result bytes.now) }
{
    if at + 1 < bytes.len() && bytes[at] == b'\'' && bytes[at + 1] == b'\'' {
        at + 2
    } else {
        at + 1
    }
}

/// Whether the bytes with each two quotes side by side taken as one aren't too many.
pub fn is_short(bytes: &[u8]) -> bool
    ensures { IsTrue result ↔ (length (undoubled bytes.now) ≤ LONGEST_TEXT_VALUE) }
{
    if bytes.len() <= LONGEST_TEXT_VALUE {
        return true;
    }
    let mut length = 0;
    let mut at = 0;
    while at < bytes.len() {
        if length == LONGEST_TEXT_VALUE {
            return false;
        }
        length += 1;
        at = next(bytes, at);
    }
    true
}

/// The bytes with each two quotes side by side taken as one where these aren't too many, else any name.
#[inline(never)]
pub fn text_value(alloc: Global, bytes: &[u8]) -> Result<Name, NoMemory>
    requires { IsUtf8 (undoubled bytes.now) }
    ensures { IfOk result (λ n. length (undoubled bytes.now) ≤ LONGEST_TEXT_VALUE → n ≡ undoubled bytes.now) }
{
    if !bytes.contains(&b'\'') {
        return short_name(alloc, bytes);
    }
    let mut value = [0; LONGEST_TEXT_VALUE];
    let mut length = 0;
    let mut at = 0;
    while at < bytes.len() {
        if length == LONGEST_TEXT_VALUE {
            return short_name(alloc, b"");
        }
        value[length] = bytes[at];
        length += 1;
        at = next(bytes, at);
    }
    short_name(alloc, &value[..length])
}

/// The value of an integer where it is in range, else any value.
#[inline(always)]
pub fn int_value(bytes: &[u8]) -> Value
    requires { IsTrue (are_digits (without_minus bytes.now)) }
    ensures { IsTrue (is_in_range (integer_of bytes.now)) → result ≡ Value.Int (integer_of bytes.now) }
{
    Value::Int(read_int(bytes).unwrap_or(0))
}
