//! The two forms of text that stand in a certificate alone: an order of tables, and a block.

ghost use Rattle.std.specs.Prelude.{◌≡◌, ◌⊎◌, ◌≤◌, ℕ, List, IfOk, Err, MatchResult, All, length};
ghost use Rattle.cqa_value.specs.declared.memory.Fail.TheVariants.{NoMemory, Refused};
ghost use Rattle.script_lex.specs.Tokens.{Spells, longest_text};
ghost use Rattle.spj_syntax.specs.Limits.{most_items, most_tokens};
ghost use Rattle.spj_syntax.specs.Parsed.{RefusesForm};
ghost use Rattle.spj_syntax.specs.Reading.{IsReadable, ParsesForm, Reads};
ghost use Rattle.spj_syntax.specs.Texts.{IsOrderText, IsBlockText};
ghost use Rattle.spj_syntax.specs.Written.{IsSome, table_rows_tokens};
ghost use Rattle.spj_syntax.specs.Grammar as grammar;
ghost use Rattle.spj_syntax.specs.declared.fault.SyntaxFault.{SyntaxFault};
ghost use Rattle.spj_syntax.specs.declared.tree.RawBlock.{RawBlock};

use crate::lists::listed;
use crate::parser::{first_unfit, stopped};
use crate::reader::{Reader, Stop};
use crate::{RawBlock, SyntaxFault};
use cqa_value::{Fail, Items, Name};
use script_lex::Token;
use std::alloc::Global;

/// `NAME values ROW, ..`.
pub fn table_rows(alloc: Global, reader: &mut Reader<'_>) -> Result<RawBlock, Stop>
    ensures reads { Reads grammar.table_rows table_rows_tokens result reader.old reader.new }
    ensures some { IfOk result (λ raw. IsSome raw.rows) }
    ensures few { IfOk result (λ raw. length raw.rows ≤ most_items) }
    ensures kept { IfOk result (λ raw. All IsSome raw.rows) }
{
    let table = reader.name(alloc)?;
    reader.word(b"values")?;
    let rows = listed(alloc, reader)?;
    Ok(RawBlock { table, rows })
}

/// A form of text that is no statement.
trait Form: Sized + Drop {
    ghost use Rattle.spj_syntax.specs.First.{decided};
    ghost use Rattle.spj_syntax.specs.Lexemes.{Lexeme};
    ghost use Rattle.spj_syntax.specs.Shapes.{Shape};
    ghost use Rattle.std.specs.Prelude.{List, true};

    ghost shape: { Shape };

    ghost tokens: { Self → List Lexeme };

    ghost kept: { Self → Type 0 };

    ghost is_decided: { decided shape ≡ true };

    fn form(alloc: Global, reader: &mut Reader<'_>) -> Result<Self, Stop>
        ensures reads { Reads shape tokens result reader.old reader.new }
        ensures kept { IfOk result (λ v. kept v) };
}

/// `order NAME, ..`.
impl Form for Items<Name> {
    ghost use Rattle.std.specs.Prelude.{refl};
    ghost use Rattle.spj_syntax.specs.Grammar.{order};
    ghost use Rattle.spj_syntax.specs.Written.{order_tokens, IsSome};

    ghost shape = { order };

    ghost tokens = { order_tokens };

    ghost kept = { λ names. IsSome names };

    ghost is_decided = { refl };

    fn form(alloc: Global, reader: &mut Reader<'_>) -> Result<Self, Stop> {
        reader.word(b"order")?;
        let names = listed(alloc, reader)?;
        Ok(names)
    }
}

/// `block NAME values ROW, ..`.
impl Form for RawBlock {
    ghost use Rattle.std.specs.Prelude.{◌≤◌, All, length, refl};
    ghost use Rattle.spj_syntax.specs.Grammar.{block};
    ghost use Rattle.spj_syntax.specs.Limits.{most_items};
    ghost use Rattle.spj_syntax.specs.Written.{block_tokens, IsSome};

    ghost shape = { block };

    ghost tokens = { block_tokens };

    ghost kept = { λ raw. IsSome raw.rows × (length raw.rows ≤ most_items) × All IsSome raw.rows };

    ghost is_decided = { refl };

    fn form(alloc: Global, reader: &mut Reader<'_>) -> Result<Self, Stop> {
        reader.word(b"block")?;
        let raw = table_rows(alloc, reader)?;
        Ok(raw)
    }
}

/// The form that tokens are.
fn parse_form<F: Form>(alloc: Global, text: &[u8], tokens: &[Token]) -> Result<F, Fail<SyntaxFault>>
    requires readable { All (IsReadable text.now) tokens.now }
    requires few { length tokens.now ≤ most_tokens }
    requires short { length text.now ≤ longest_text }
    ensures exact { ParsesForm F.shape F.tokens text.now tokens.now result }
    ensures kept { IfOk result (λ v. F.kept v) }
{
    let mut reader = Reader::new(text, tokens);
    let found = match F::form(alloc, &mut reader) {
        Ok(found) => found,
        Err(stop) => return Err(stopped(stop, text, tokens, reader.count())),
    };
    let left = reader.count();
    if left > 0 {
        drop(found);
        return Err(stopped(Stop::Syntax, text, tokens, left));
    }
    match first_unfit(text, tokens) {
        Some(fault) => {
            drop(found);
            Err(Fail::Refused(fault))
        }
        None => Ok(found),
    }
}

/// The names of the order that the tokens of a text are, `order NAME, ..`.
///
/// # Errors
/// `At` where the tokens are no order, else a name that is out of its limits: the first such token. `NoMemory` where memory is
/// refused.
pub fn parse_order(
    alloc: Global,
    text: &[u8],
    tokens: &[Token],
) -> Result<Items<Name>, Fail<SyntaxFault>>
    requires spelled { Spells text.now tokens.now }
    requires short { length text.now ≤ longest_text }
    // The text is an order of these names, one or more.
    ensures order { IfOk result (λ names. IsOrderText text.now names) }
    ensures some { IfOk result (λ names. IsSome names) }

    // An order is read, unless memory runs out.
    ensures complete { (names : List (List ℕ)) → IsOrderText text.now names → MatchResult result (λ found. found ≡ names) (λ e. e ≡ NoMemory) }

    // A refusal names the first fault of syntax, else the first token that doesn't fit; and where there is one, it is the answer, unless memory runs out.
    ensures refused { (fault : SyntaxFault) → result ≡ Err (Refused fault) → RefusesForm grammar.order text.now tokens.now fault }
    ensures only_fault { (fault : SyntaxFault) → RefusesForm grammar.order text.now tokens.now fault → MatchResult result (λ _. ⊥) (λ e. (e ≡ Refused fault) ⊎ (e ≡ NoMemory)) }
{
    parse_form(alloc, text, tokens)
}

/// The block that the tokens of a text are, `block NAME values ROW, ..`.
///
/// # Errors
/// `At` where the tokens are no block, else a literal or a name that is out of its limits: the first such token. `NoMemory`
/// where memory is refused.
pub fn parse_block(
    alloc: Global,
    text: &[u8],
    tokens: &[Token],
) -> Result<RawBlock, Fail<SyntaxFault>>
    requires spelled { Spells text.now tokens.now }
    requires short { length text.now ≤ longest_text }
    // The text is a block, of one row or more, each of one value or more, and its rows can be counted.
    ensures block { IfOk result (λ raw. IsBlockText text.now raw) }
    ensures some { IfOk result (λ raw. IsSome raw.rows) }
    ensures few { IfOk result (λ raw. length raw.rows ≤ most_items) }
    ensures kept { IfOk result (λ raw. All IsSome raw.rows) }

    // A block is read, unless memory runs out.
    ensures complete { (raw : RawBlock) → IsBlockText text.now raw → MatchResult result (λ found. found ≡ raw) (λ e. e ≡ NoMemory) }

    // A refusal names the first fault of syntax, else the first token that doesn't fit; and where there is one, it is the answer, unless memory runs out.
    ensures refused { (fault : SyntaxFault) → result ≡ Err (Refused fault) → RefusesForm grammar.block text.now tokens.now fault }
    ensures only_fault { (fault : SyntaxFault) → RefusesForm grammar.block text.now tokens.now fault → MatchResult result (λ _. ⊥) (λ e. (e ≡ Refused fault) ⊎ (e ≡ NoMemory)) }
{
    parse_form(alloc, text, tokens)
}
