//! The parts of a statement that are one token or a few: kinds, columns, literals and operators.

ghost use Rattle.std.specs.Prelude.{◌∷◌, [], IfOk};
ghost use Rattle.spj_syntax.specs.Lexemes.{Word, Mark};
ghost use Rattle.spj_syntax.specs.Reading.{Reads};
ghost use Rattle.spj_syntax.specs.Written.{literal_tokens, column_tokens, col_tokens, op_symbol};
ghost use Rattle.cqa_model.specs.Valid.{IsName};
ghost use Rattle.schema_text.specs.Text.{kind_word};
ghost use Rattle.spj_syntax.specs.Grammar as grammar;

use crate::RawCol;
use crate::leaf::{int_value, text_value};
use crate::reader::{Reader, Seen, Stop};
use cqa_model::{Column, Op};
use cqa_value::{Kind, Value};
use script_lex::Symbol;
use std::alloc::Global;

/// `int` or `text`.
pub fn kind(reader: &mut Reader<'_>) -> Result<Kind, Stop>
    ensures { Reads grammar.kind (λ k. Word (kind_word k) ∷ []) result reader.old reader.new }
{
    if reader.sees_word(b"int") {
        reader.advance();
        return Ok(Kind::Int);
    }
    reader.word(b"text")?;
    Ok(Kind::Text)
}

/// `NAME KIND`.
pub fn column(alloc: Global, reader: &mut Reader<'_>) -> Result<Column, Stop>
    ensures reads { Reads grammar.column column_tokens result reader.old reader.new }
    ensures named { IfOk result (λ c. IsName c.name) }
{
    let name = reader.name(alloc)?;
    let kind = kind(reader)?;
    Ok(Column { name, kind })
}

/// An integer or a text.
#[inline(always)]
pub fn literal(alloc: Global, reader: &mut Reader<'_>) -> Result<Value, Stop>
    ensures { Reads grammar.literal literal_tokens result reader.old reader.new }
{
    match reader.peek() {
        Seen::Int(digits) => {
            reader.advance();
            Ok(int_value(digits))
        }
        Seen::Text(bytes) => {
            let text = text_value(alloc, bytes)?;
            reader.advance();
            Ok(Value::Text(text))
        }
        Seen::Word(_) | Seen::Sym(_) | Seen::End => Err(Stop::Syntax),
    }
}

/// `NAME` or `TABLE.NAME`.
pub fn col(alloc: Global, reader: &mut Reader<'_>) -> Result<RawCol, Stop>
    ensures { Reads grammar.col col_tokens result reader.old reader.new }
{
    let name = reader.name(alloc)?;
    if reader.sees_mark(Symbol::Dot) {
        reader.advance();
        let second = reader.name(alloc)?;
        return Ok(RawCol {
            table: Some(name),
            name: second,
        });
    }
    Ok(RawCol { table: None, name })
}

/// `<>`, `<`, `<=`, `>` or `>=`.
pub fn op_but_equal(reader: &mut Reader<'_>) -> Result<Op, Stop>
    ensures { Reads grammar.op_but_equal (λ op. Mark (op_symbol op) ∷ []) result reader.old reader.new }
{
    if reader.sees_mark(Symbol::Ne) {
        reader.advance();
        return Ok(Op::Ne);
    }
    if reader.sees_mark(Symbol::Lt) {
        reader.advance();
        return Ok(Op::Lt);
    }
    if reader.sees_mark(Symbol::Le) {
        reader.advance();
        return Ok(Op::Le);
    }
    if reader.sees_mark(Symbol::Gt) {
        reader.advance();
        return Ok(Op::Gt);
    }
    reader.mark(Symbol::Ge)?;
    Ok(Op::Ge)
}

/// `=`, `<>`, `<`, `<=`, `>` or `>=`.
pub fn op(reader: &mut Reader<'_>) -> Result<Op, Stop>
    ensures { Reads grammar.op (λ op. Mark (op_symbol op) ∷ []) result reader.old reader.new }
{
    if reader.sees_mark(Symbol::Eq) {
        reader.advance();
        return Ok(Op::Eq);
    }
    op_but_equal(reader)
}
