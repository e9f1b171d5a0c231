//! What a statement says of a certificate's tables and of its query.

ghost use Rattle.std.specs.Prelude.{◌≤◌, List, IfOk, MatchOption, length};
ghost use Rattle.script_lex.specs.declared.kinds.Token.{Token as TokenValue};
ghost use Rattle.script_lex.specs.Tokens.{Spells, longest_text};
ghost use Rattle.spj_syntax.specs.declared.tree.Statement.{Statement as StatementValue};
ghost use Rattle.spj_syntax.specs.Texts.{HasStatement};
ghost use Rattle.rewrite_check.specs.Reading.{HasOpening, Means};

use cqa_value::{Fail, Items, NoMemory, Row};
use script_lex::{Token, tokens};
use spj_syntax::{RawSchema, Select, Statement, Verb, parse};
use std::alloc::Global;

/// A statement of a certificate up to its query: a table is created, or a row is to be proved; or another statement.
#[derive(Drop)]
pub enum Opening {
    Create(RawSchema),
    Prove { row: Row, select: Select },
    Other,
}

/// The tokens of a text, where it has some.
pub fn tokens_of(alloc: Global, text: &[u8]) -> Result<Option<Items<Token>>, NoMemory>
    ensures { IfOk result (λ found. MatchOption found ((other : List TokenValue) → length text.now ≤ longest_text → Spells text.now other → ⊥) (λ tokens. (length text.now ≤ longest_text) × Spells text.now tokens)) }
{
    match tokens(alloc, text) {
        Ok(tokens) => Ok(Some(tokens)),
        Err(Fail::NoMemory) => Err(NoMemory),
        Err(Fail::Refused(_)) => Ok(None),
    }
}

/// The statement that the tokens of a text are, where they are one.
fn parsed(alloc: Global, text: &[u8], tokens: &[Token]) -> Result<Option<Statement>, NoMemory>
    requires spelled { Spells text.now tokens.now }
    requires short { length text.now ≤ longest_text }
    ensures { IfOk result (λ found. MatchOption found ((other : StatementValue) → HasStatement text.now other → ⊥) (HasStatement text.now)) }
{
    match parse(alloc, text, tokens) {
        Ok(statement) => Ok(Some(statement)),
        Err(Fail::NoMemory) => Err(NoMemory),
        Err(Fail::Refused(_)) => Ok(None),
    }
}

/// The statement that a text is, where it is one.
fn statement_of(alloc: Global, text: &[u8]) -> Result<Option<Statement>, NoMemory>
    ensures { IfOk result (λ found. MatchOption found ((other : StatementValue) → HasStatement text.now other → ⊥) (HasStatement text.now)) }
{
    match tokens_of(alloc, text)? {
        Some(tokens) => parsed(alloc, text, tokens.as_slice()),
        None => Ok(None),
    }
}

/// What is said by what is asked of a query.
fn asked(verb: Verb, select: Select) -> Opening
    ensures { Means (StatementValue.Asking verb select) result }
{
    match verb {
        Verb::Prove { row } => Opening::Prove { row, select },
        other => {
            drop(other);
            drop(select);
            Opening::Other
        }
    }
}

/// What a statement says.
fn meaning(statement: Statement) -> Opening
    ensures { Means statement result }
{
    match statement {
        Statement::Create { schema } => Opening::Create(schema),
        Statement::Asking { verb, select } => asked(verb, select),
        other => {
            drop(other);
            Opening::Other
        }
    }
}

/// What the statement says that a text is; another where it is none.
pub fn opening_of(alloc: Global, text: &[u8]) -> Result<Opening, NoMemory>
    ensures { IfOk result (HasOpening text.now) }
{
    match statement_of(alloc, text)? {
        Some(statement) => Ok(meaning(statement)),
        None => Ok(Opening::Other),
    }
}
