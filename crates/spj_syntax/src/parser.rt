//! From the tokens of a text to its statement, or to the first token that no statement goes on with,
//! or that is out of its limits.

ghost use Rattle.std.specs.Prelude.{◌≡◌, ◌⊎◌, ◌≤◌, ◌-◌, ◌∷◌, [], All, IfOk, IfErr, OnOk, Err, MatchResult, MatchOption, IsTrue, length, drop, pos, codes, true, false};
ghost use Rattle.cqa_value.specs.Literals.{are_digits, without_minus, integer_of};
ghost use Rattle.cqa_value.specs.declared.memory.Fail.TheVariants.{NoMemory, Refused};
ghost use Rattle.script_lex.specs.Tokens.{Spells, longest_text};
ghost use Rattle.spj_syntax.specs.Lexemes.{Word, Number, lexeme};
ghost use Rattle.spj_syntax.specs.Limits.{most_tokens};
ghost use Rattle.spj_syntax.specs.Parsed.{AllLexemesFit, Fits, IsStatement, IsFirstUnfit, IsIntInRange, PlainFit, RefusesTokens, is_set, lexemes, place_of};
ghost use Rattle.spj_syntax.specs.Reading.{IsReadable, IsUnfit, Parses, failure_of};
ghost use Rattle.spj_syntax.specs.Written.{IsWrittenAs, IsSmall};
ghost use Rattle.spj_syntax.specs.declared.tree.Statement.{Statement};
ghost use Rattle.spj_syntax.specs.declared.fault.SyntaxFault.{SyntaxFault};

use crate::leaf::is_short;
use crate::reader::{Reader, Stop};
use crate::statements::{plain, set};
use crate::{Statement, SyntaxFault};
use cqa_model::LONGEST_NAME;
use cqa_value::{Fail, read_int};
use script_lex::{Token, TokenKind};
use std::alloc::Global;

/// A token of at most so many bytes is within its limits, whatever it is: an integer is in range with any digits.
const SURELY_FITS: usize = 18;

/// Where a token begins.
fn offset(text: &[u8], token: Token) -> u32
    requires readable { IsReadable text.now token }
    requires short { length text.now ≤ longest_text }
    ensures { result ≡ token.span.from }
{
    token.span.from as u32
}

/// Where the first of the last so many tokens begins, or the text's length.
fn place(text: &[u8], tokens: &[Token], left: usize) -> u32
    requires readable { All (IsReadable text.now) tokens.now }
    requires short { length text.now ≤ longest_text }
    requires there { left ≤ length tokens.now }
    ensures { result ≡ place_of text.now (drop (length tokens.now - left) tokens.now) }
{
    if left == 0 {
        return text.len() as u32;
    }
    offset(text, tokens[tokens.len() - left])
}

/// The failure of a parse whose reading stopped with so many tokens left.
pub fn stopped(stop: Stop, text: &[u8], tokens: &[Token], left: usize) -> Fail<SyntaxFault>
    requires readable { All (IsReadable text.now) tokens.now }
    requires short { length text.now ≤ longest_text }
    requires there { stop ≡ Stop.Syntax → left ≤ length tokens.now }
    ensures { result ≡ failure_of stop text.now (drop (length tokens.now - left) tokens.now) }
{
    match stop {
        Stop::Syntax => Fail::Refused(SyntaxFault::At(place(text, tokens, left))),
        Stop::NoMemory => Fail::NoMemory,
    }
}

/// What is wrong with a token that isn't short, where the statement is no `set`.
fn unfit_long(text: &[u8], token: Token) -> Option<SyntaxFault>
    requires readable { IsReadable text.now token }
    requires short { length text.now ≤ longest_text }
    ensures { MatchOption result (Fits false (lexeme text.now token)) (λ fault. IsUnfit text.now token fault) }
{
    let from = offset(text, token);
    let bytes = &text[token.span.from..token.span.to];
    match token.kind {
        TokenKind::Word => {
            if bytes.len() > LONGEST_NAME {
                return Some(SyntaxFault::LongName(from));
            }
            None
        }
        TokenKind::Int => match read_int(bytes) {
            Some(_) => None,
            None => Some(SyntaxFault::OutOfRange(from)),
        },
        TokenKind::Text => {
            if is_short(&bytes[1..bytes.len() - 1]) {
                return None;
            }
            Some(SyntaxFault::TextTooLong(from))
        }
        TokenKind::Sym(_) => None,
    }
}

/// What is wrong with a token alone, where the statement is no `set`.
#[inline(always)]
fn unfit(text: &[u8], token: Token) -> Option<SyntaxFault>
    requires readable { IsReadable text.now token }
    requires short { length text.now ≤ longest_text }
    ensures { MatchOption result (Fits false (lexeme text.now token)) (λ fault. IsUnfit text.now token fault) }
{
    if token.span.to - token.span.from <= SURELY_FITS {
        return None;
    }
    unfit_long(text, token)
}

/// What is wrong with the first token that doesn't fit, where the statement is no `set`.
pub fn first_unfit(text: &[u8], tokens: &[Token]) -> Option<SyntaxFault>
    requires readable { All (IsReadable text.now) tokens.now }
    requires short { length text.now ≤ longest_text }
    ensures { MatchOption result (PlainFit (lexemes text.now tokens.now)) (λ fault. IsFirstUnfit false text.now tokens.now fault) }
{
    for token in tokens {
        if let Some(fault) = unfit(text, *token) {
            return Some(fault);
        }
    }
    None
}

/// A statement that is no `set`.
fn parse_plain(alloc: Global, text: &[u8], tokens: &[Token]) -> Result<Statement, Fail<SyntaxFault>>
    requires readable { All (IsReadable text.now) tokens.now }
    requires few { length tokens.now ≤ most_tokens }
    requires short { length text.now ≤ longest_text }
    requires no_set { is_set (lexemes text.now tokens.now) ≡ false }
    ensures exact { Parses text.now tokens.now result }
    ensures small { IfOk result (λ statement. IsSmall statement) }
{
    let mut reader = Reader::new(text, tokens);
    let found = match plain(alloc, &mut reader) {
        Ok(found) => found,
        Err(stop) => return Err(stopped(stop, text, tokens, reader.count())),
    };
    let left = reader.count();
    if left > 0 {
        drop(found);
        return Err(stopped(Stop::Syntax, text, tokens, left));
    }
    match first_unfit(text, tokens) {
        Some(fault) => {
            drop(found);
            Err(Fail::Refused(fault))
        }
        None => Ok(found),
    }
}

/// The number that digits write where it is one of conflicts.
fn conflicts(digits: &[u8]) -> Option<u32>
    requires { IsTrue (are_digits (without_minus digits.now)) }
    ensures { MatchOption result (¬ IsIntInRange true (integer_of digits.now)) (λ number. integer_of digits.now ≡ pos number) }
{
    let number = read_int(digits)?;
    u32::try_from(number).ok()
}

/// The digits of the number of a `set` with nothing behind it.
fn set_digits<'a>(text: &'a [u8], tokens: &'a [Token]) -> Result<&'a [u8], Fail<SyntaxFault>>
    requires readable { All (IsReadable text.now) tokens.now }
    requires few { length tokens.now ≤ most_tokens }
    requires short { length text.now ≤ longest_text }
    requires set { is_set (lexemes text.now tokens.now) ≡ true }
    ensures digits { IfOk result (λ digits. IsTrue (are_digits (without_minus digits.now))) }
    ensures whole { IfOk result (λ digits. lexemes text.now tokens.now ≡ Word (codes "set") ∷ Word (codes "conflicts") ∷ Number (integer_of digits.now) ∷ []) }
    ensures statement { OnOk result (IsStatement (lexemes text.now tokens.now)) }
    ensures failed { IfErr result (λ failure. Parses text.now tokens.now (Err failure)) }
{
    let mut reader = Reader::new(text, tokens);
    let digits = match set(&mut reader) {
        Ok(digits) => digits,
        Err(stop) => return Err(stopped(stop, text, tokens, reader.count())),
    };
    let behind = reader.count();
    if behind > 0 {
        return Err(stopped(Stop::Syntax, text, tokens, behind));
    }
    Ok(digits)
}

/// A `set`.
fn parse_set(text: &[u8], tokens: &[Token]) -> Result<Statement, Fail<SyntaxFault>>
    requires readable { All (IsReadable text.now) tokens.now }
    requires few { length tokens.now ≤ most_tokens }
    requires short { length text.now ≤ longest_text }
    requires set { is_set (lexemes text.now tokens.now) ≡ true }
    ensures exact { Parses text.now tokens.now result }
    ensures small { IfOk result (λ statement. IsSmall statement) }
{
    match conflicts(set_digits(text, tokens)?) {
        Some(number) => Ok(Statement::SetConflicts(number)),
        None => Err(Fail::Refused(SyntaxFault::OutOfRange(offset(text, tokens[2])))),
    }
}

fn parse_readable(
    alloc: Global,
    text: &[u8],
    tokens: &[Token],
) -> Result<Statement, Fail<SyntaxFault>>
    requires readable { All (IsReadable text.now) tokens.now }
    requires few { length tokens.now ≤ most_tokens }
    requires short { length text.now ≤ longest_text }
    ensures exact { Parses text.now tokens.now result }
    ensures small { IfOk result (λ statement. IsSmall statement) }
{
    if Reader::new(text, tokens).sees_word(b"set") {
        parse_set(text, tokens)
    } else {
        parse_plain(alloc, text, tokens)
    }
}

/// The statement that the tokens of a text are.
///
/// # Errors
/// `At` where the tokens are no statement, else a literal or a name that is out of its limits: the
/// first such token. `NoMemory` where memory is refused.
pub fn parse(alloc: Global, text: &[u8], tokens: &[Token]) -> Result<Statement, Fail<SyntaxFault>>
    requires spelled { Spells text.now tokens.now }
    requires short { length text.now ≤ longest_text }
    // The tokens are a statement of the grammar, they fit, and the statement is written as them.
    ensures statement { OnOk result (IsStatement (lexemes text.now tokens.now)) }
    ensures fit { OnOk result (AllLexemesFit (lexemes text.now tokens.now)) }
    ensures written { IfOk result (λ statement. IsWrittenAs statement (lexemes text.now tokens.now)) }

    // Its rows or its tests can be counted.
    ensures small { IfOk result (λ statement. IsSmall statement) }

    // A statement that fits is read, unless memory runs out; and no other statement is written so.
    ensures complete { IsStatement (lexemes text.now tokens.now) → AllLexemesFit (lexemes text.now tokens.now) → MatchResult result (λ _. Unit {0}) (λ e. e ≡ NoMemory) }
    ensures only { (statement : Statement) → IsWrittenAs statement (lexemes text.now tokens.now) → IfOk result (λ found. found ≡ statement) }

    // A refusal names the first fault of syntax, else the first token that doesn't fit; and where there is one, it is the answer, unless memory runs out.
    ensures refused { (fault : SyntaxFault) → result ≡ Err (Refused fault) → RefusesTokens text.now tokens.now fault }
    ensures only_fault { (fault : SyntaxFault) → RefusesTokens text.now tokens.now fault → MatchResult result (λ _. ⊥) (λ e. (e ≡ Refused fault) ⊎ (e ≡ NoMemory)) }
{
    parse_readable(alloc, text, tokens)
}
