//! From the text of a statement to the statement.

ghost use Rattle.std.specs.Prelude.{◌≡◌, ◌≤◌, ◌<◌, ◌^◌, ℕ, IfOk, length};
ghost use Rattle.script_lex.specs.declared.kinds.LexFault.TheVariants.{TooLong};
ghost use Rattle.script_lex.specs.Tokens.{Spells, longest_text};
ghost use Rattle.spj_syntax.specs.Written.{IsSmall};
ghost use Rattle.cqa_model.specs.declared.limits.TheConstants.{LONGEST_INPUT};
ghost use Rattle.command_shell.specs.Saying.{of_lexing, of_parsing, IsReadAs};

use cqa_value::Fail;
use refusals::{LimitKind, Refusal};
use script_lex::{LexFault, Token, tokens};
use spj_syntax::{Statement, SyntaxFault, parse};
use std::alloc::Global;

/// The refusal of a text that has no tokens.
fn without_tokens(fault: LexFault) -> Refusal
    requires { (size : ℕ) → fault ≡ TooLong size → size < 2 ^ 32 }
    ensures { result ≡ of_lexing fault }
{
    match fault {
        LexFault::TooLong(len) => Refusal::StatementTooLong { len: len as u32 },
        LexFault::BadByte(at) => Refusal::BadByte { at },
    }
}

/// The refusal of tokens that are no statement, or of one that is out of its limits.
fn without_statement(fault: SyntaxFault) -> Refusal
    ensures { result ≡ of_parsing fault }
{
    match fault {
        SyntaxFault::At(at) => Refusal::Syntax { at },
        SyntaxFault::OutOfRange(at) => Refusal::OutOfRange { at },
        SyntaxFault::TextTooLong(at) => Refusal::TextTooLong { at },
        SyntaxFault::LongName(_) => Refusal::Limit {
            what: LimitKind::Name,
        },
    }
}

/// The statement that the tokens of a text are.
fn parsed(alloc: Global, text: &[u8], tokens: &[Token]) -> Result<Statement, Fail<Refusal>>
    requires spelled { Spells text.now tokens.now }
    requires short { length text.now ≤ longest_text }
    ensures says { IsReadAs text.now result }
    ensures small { IfOk result IsSmall }
{
    match parse(alloc, text, tokens) {
        Ok(statement) => Ok(statement),
        Err(Fail::NoMemory) => Err(Fail::NoMemory),
        Err(Fail::Refused(fault)) => Err(Fail::Refused(without_statement(fault))),
    }
}

/// The statement that a text is.
///
/// # Errors
///
/// The refusal by the first check on the text's form that fails.
pub fn read(alloc: Global, text: &[u8]) -> Result<Statement, Fail<Refusal>>
    requires { length text.now ≤ LONGEST_INPUT }
    ensures says { IsReadAs text.now result }
    ensures small { IfOk result IsSmall }
{
    match tokens(alloc, text) {
        Ok(tokens) => parsed(alloc, text, tokens.as_slice()),
        Err(Fail::NoMemory) => Err(Fail::NoMemory),
        Err(Fail::Refused(fault)) => Err(Fail::Refused(without_tokens(fault))),
    }
}
