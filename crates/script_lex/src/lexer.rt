//! From a statement's text to its tokens, or to the first byte that
//! belongs to none.

ghost use Rattle.std.specs.Prelude.{◌≡◌, ◌≤◌, ◌<◌, ◌+◌, ◌^◌, List, length, IsUtf8, All, IfOk, MatchOption, MatchResult, ◌⊎◌};
ghost use Rattle.std.specs.Str.{IsValidUpTo};
ghost use Rattle.cqa_value.specs.declared.memory.Fail.TheVariants.{NoMemory as FailNoMemory, Refused};
ghost use Rattle.script_lex.specs.declared.kinds.Token.{Token};
ghost use Rattle.script_lex.specs.declared.kinds.LexFault.{LexFault};
ghost use Rattle.script_lex.specs.declared.kinds.LexFault.TheVariants.{BadByte};
ghost use Rattle.script_lex.specs.TokenParts.{RefusesByte};
ghost use Rattle.script_lex.specs.Tokens.{longest_text, Spells, LiesIn, IsSpelled, Rise, IsFault, RefusesText, IsClean, IsUnclean};

use crate::pieces::{Piece, PieceKind, first_piece};
use crate::{LexFault, Span, Token, TokenKind};
use cqa_value::{Fail, Items};
use std::alloc::Global;

/// The most bytes of a statement's text.
pub const LONGEST_TEXT: usize = 1_048_576;

/// How many bytes of a text a token is thought to take, with the blanks around it, when room is made for the tokens.
const BYTES_OF_TOKEN: usize = 4;

/// How many bytes are UTF-8, where not all are.
fn utf8_fault(bytes: &[u8]) -> Option<usize>
    ensures { MatchOption result (IsUtf8 bytes.now) (λ n. (IsUtf8 bytes.now → ⊥) × IsValidUpTo bytes.now n) }
{
    let fault = std::str::from_utf8(bytes).err()?;
    Some(fault.valid_up_to())
}

/// Where a text isn't UTF-8.
fn unclean(text: &[u8], piece: Piece) -> Option<usize>
    requires { piece.kind ≡ PieceKind.Token TokenKind.Text → (piece.span.from + 2 ≤ piece.span.to) × (piece.span.to ≤ length text.now) }
    ensures { MatchOption result (IsClean text.now piece) (λ at. IsUnclean text.now piece at × (at < length text.now)) }
{
    let PieceKind::Token(TokenKind::Text) = piece.kind else {
        return None;
    };
    let quoted = &text[piece.span.from..piece.span.to];
    let count = utf8_fault(&quoted[1..quoted.len() - 1])?;
    Some(piece.span.from + 1 + count)
}

/// The refusal of a byte that belongs to no token.
fn bad_byte(at: usize) -> Fail<LexFault>
    requires { at < 2 ^ 32 }
    ensures { result ≡ Refused (BadByte at) }
{
    Fail::Refused(LexFault::BadByte(at as u32))
}

/// The tokens of a text that isn't too long.
fn tokens_of_short(alloc: Global, text: &[u8]) -> Result<Items<Token>, Fail<LexFault>>
    requires { length text.now ≤ longest_text }
    ensures { MatchResult result (Spells text.now) (RefusesByte text.now) }
{
    let mut found = Items::with_capacity(alloc, text.len() / BYTES_OF_TOKEN)?;
    let mut at = 0;
    'pieces: while at < text.len() {
        let Some((kind, count)) = first_piece(&text[at..]) else {
            return Err(bad_byte(at));
        };
        let span = Span {
            from: at,
            to: at + count,
        };
        if let Some(place) = unclean(text, Piece { kind, span }) {
            return Err(bad_byte(place));
        }
        if let PieceKind::Token(kind) = kind {
            found.push(Token { kind, span })?;
        }
        at = span.to;
    }
    Ok(found)
}

/// The tokens of a statement's text.
///
/// # Errors
/// `TooLong` with the length of a text longer than `LONGEST_TEXT`; else `BadByte` with the place of the first byte that begins no token,
/// blank or comment, or that isn't UTF-8 in a text between quotes. A quote that no later one closes is such a byte.
/// `NoMemory` where memory is refused.
pub fn tokens(alloc: Global, text: &[u8]) -> Result<Items<Token>, Fail<LexFault>>
    // The tokens spell a text that isn't too long, and a refusal has its cause.
    ensures exact { MatchResult result (λ tokens. (length text.now ≤ longest_text) × Spells text.now tokens) (RefusesText text.now) }
    // A text that tokens spell gives these tokens, unless memory runs out.
    ensures only_tokens { (tokens : List Token) → length text.now ≤ longest_text → Spells text.now tokens → MatchResult result (λ v. v ≡ tokens) (λ e. e ≡ FailNoMemory) }
    // A fault of the text is the answer, unless memory runs out.
    ensures only_fault { (fault : LexFault) → IsFault text.now fault → MatchResult result (λ _. ⊥) (λ e. (e ≡ Refused fault) ⊎ (e ≡ FailNoMemory)) }

    // The tokens are bytes of the text, in their order, and each is spelled as its kind.
    ensures lie_in { IfOk result (All (LiesIn text.now)) }
    ensures rise { IfOk result (Rise 0) }
    ensures spelled { IfOk result (All (IsSpelled text.now)) }
{
    if text.len() > LONGEST_TEXT {
        return Err(Fail::Refused(LexFault::TooLong(text.len())));
    }
    tokens_of_short(alloc, text)
}
