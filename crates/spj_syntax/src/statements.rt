//! The statements, each read by the shape that the grammar gives it.

ghost use Rattle.std.specs.Prelude.{◌≡◌, ◌<◌, ◌∷◌, [], length, IfOk, All, IsTrue, codes};
ghost use Rattle.cqa_value.specs.Literals.{integer_of, are_digits, without_minus};
ghost use Rattle.spj_syntax.specs.Lexemes.{Word, Number};
ghost use Rattle.spj_syntax.specs.Reading.{Reads, Took, body_tokens};
ghost use Rattle.spj_syntax.specs.Written.{strict_tokens, key_tokens, change_tokens, HasKey, statement_tokens, IsSmall};
ghost use Rattle.cqa_model.specs.Valid.{IsName};
ghost use Rattle.spj_syntax.specs.Grammar as grammar;
ghost use Rattle.spj_syntax.specs.Factored as factored;

use crate::forms::table_rows;
use crate::lists::{anded, columns, filtered, listed};
use crate::queries::asking;
use crate::ranges::range;
use crate::reader::{Reader, Stop};
use crate::{Change, RawSchema, Statement};
use cqa_model::Column;
use cqa_value::{Items, Name};
use script_lex::Symbol;
use std::alloc::Global;

/// `primary key (NAME, ..)`.
fn key(alloc: Global, reader: &mut Reader<'_>) -> Result<Items<Name>, Stop>
    ensures reads { Reads grammar.key key_tokens result reader.old reader.new }
    ensures some { IfOk result (λ v. 0 < length v) }
    ensures named { IfOk result (λ v. All IsName v) }
{
    reader.word(b"primary")?;
    reader.word(b"key")?;
    reader.mark(Symbol::Open)?;
    let names = listed(alloc, reader)?;
    reader.mark(Symbol::Close)?;
    Ok(names)
}

/// `(NAME KIND, .., KEY)`.
fn body(alloc: Global, reader: &mut Reader<'_>) -> Result<(Items<Column>, Items<Name>), Stop>
    ensures reads { Reads factored.body body_tokens result reader.old reader.new }
    ensures some { IfOk result (λ parts. (0 < length parts.0) × (0 < length parts.1)) }
    ensures named { IfOk result (λ parts. All (λ c. IsName c.name) parts.0 × All IsName parts.1) }
{
    reader.mark(Symbol::Open)?;
    let columns = columns(alloc, reader)?;
    let key = key(alloc, reader)?;
    reader.mark(Symbol::Close)?;
    Ok((columns, key))
}

/// `strict`, or nothing: whether it stands there.
fn is_strict(reader: &mut Reader<'_>) -> bool
    ensures { Took grammar.strict (strict_tokens result) reader.old reader.new }
{
    if reader.sees_word(b"strict") {
        reader.advance();
        return true;
    }
    false
}

/// `create [strict] table NAME (NAME KIND, .., KEY)`.
fn create(alloc: Global, reader: &mut Reader<'_>) -> Result<Statement, Stop>
    ensures reads { Reads factored.create statement_tokens result reader.old reader.new }
    ensures small { IfOk result (λ s. IsSmall s) }
{
    reader.word(b"create")?;
    let strict = is_strict(reader);
    reader.word(b"table")?;
    let name = reader.name(alloc)?;
    let parts = body(alloc, reader)?;
    let schema = RawSchema {
        name,
        columns: parts.0,
        key: parts.1,
        strict,
    };
    Ok(Statement::Create { schema })
}

/// `drop strict`, `set strict` or `set primary key (NAME, ..)`.
fn change(alloc: Global, reader: &mut Reader<'_>) -> Result<Change, Stop>
    ensures reads { Reads factored.change change_tokens result reader.old reader.new }
    ensures some { IfOk result (λ change. HasKey change) }
{
    if reader.sees_word(b"drop") {
        reader.advance();
        reader.word(b"strict")?;
        return Ok(Change::DropStrict);
    }
    reader.word(b"set")?;
    if reader.sees_word(b"strict") {
        reader.advance();
        return Ok(Change::SetStrict);
    }
    let names = key(alloc, reader)?;
    Ok(Change::SetKey(names))
}

/// `alter table NAME CHANGE`.
fn alter(alloc: Global, reader: &mut Reader<'_>) -> Result<Statement, Stop>
    ensures reads { Reads factored.alter statement_tokens result reader.old reader.new }
    ensures small { IfOk result (λ s. IsSmall s) }
{
    reader.word(b"alter")?;
    reader.word(b"table")?;
    let table = reader.name(alloc)?;
    let change = change(alloc, reader)?;
    Ok(Statement::Alter { table, change })
}

/// `insert into NAME values ROW, ..`.
fn insert(alloc: Global, reader: &mut Reader<'_>) -> Result<Statement, Stop>
    ensures reads { Reads grammar.insert statement_tokens result reader.old reader.new }
    ensures small { IfOk result (λ s. IsSmall s) }
{
    reader.word(b"insert")?;
    reader.word(b"into")?;
    let raw = table_rows(alloc, reader)?;
    Ok(Statement::Insert {
        table: raw.table,
        rows: raw.rows,
    })
}

/// `delete from NAME [where TEST and ..]`.
fn delete(alloc: Global, reader: &mut Reader<'_>) -> Result<Statement, Stop>
    ensures reads { Reads grammar.delete statement_tokens result reader.old reader.new }
    ensures small { IfOk result (λ s. IsSmall s) }
{
    reader.word(b"delete")?;
    reader.word(b"from")?;
    let table = reader.name(alloc)?;
    let tests = filtered(alloc, reader)?;
    Ok(Statement::Delete { table, tests })
}

/// `prefer NAME where TEST and ..`.
fn prefer(alloc: Global, reader: &mut Reader<'_>) -> Result<Statement, Stop>
    ensures reads { Reads grammar.prefer statement_tokens result reader.old reader.new }
    ensures small { IfOk result (λ s. IsSmall s) }
{
    reader.word(b"prefer")?;
    let table = reader.name(alloc)?;
    reader.word(b"where")?;
    let tests = anded(alloc, reader)?;
    Ok(Statement::Prefer { table, tests })
}

/// `copy NAME`.
fn copy(alloc: Global, reader: &mut Reader<'_>) -> Result<Statement, Stop>
    ensures reads { Reads grammar.copy statement_tokens result reader.old reader.new }
    ensures small { IfOk result (λ s. IsSmall s) }
{
    reader.word(b"copy")?;
    let table = reader.name(alloc)?;
    Ok(Statement::Copy { table })
}

/// `show tables`, `show log` or `show conflicts`.
fn show(reader: &mut Reader<'_>) -> Result<Statement, Stop>
    ensures reads { Reads factored.show statement_tokens result reader.old reader.new }
    ensures small { IfOk result (λ s. IsSmall s) }
{
    reader.word(b"show")?;
    if reader.sees_word(b"tables") {
        reader.advance();
        return Ok(Statement::ShowTables);
    }
    if reader.sees_word(b"log") {
        reader.advance();
        return Ok(Statement::ShowLog);
    }
    reader.word(b"conflicts")?;
    Ok(Statement::ShowConflicts)
}

/// `set conflicts NUMBER`: the digits of its number.
pub fn set<'a>(reader: &mut Reader<'a>) -> Result<&'a [u8], Stop>
    ensures reads { Reads grammar.set (λ digits. Word (codes "set") ∷ Word (codes "conflicts") ∷ Number (integer_of digits.now) ∷ []) result reader.old reader.new }
    ensures digits { IfOk result (λ digits. IsTrue (are_digits (without_minus digits.now))) }
    ensures whole { IfOk result (λ digits. reader.old ≡ Word (codes "set") ∷ Word (codes "conflicts") ∷ Number (integer_of digits.now) ∷ reader.new) }
{
    reader.word(b"set")?;
    reader.word(b"conflicts")?;
    reader.int()
}

/// A statement that changes nothing.
fn telling(alloc: Global, reader: &mut Reader<'_>) -> Result<Statement, Stop>
    ensures reads { Reads factored.telling statement_tokens result reader.old reader.new }
    ensures small { IfOk result (λ s. IsSmall s) }
{
    if reader.sees_word(b"dump") {
        reader.advance();
        return Ok(Statement::Dump);
    }
    if reader.sees_word(b"show") {
        return show(reader);
    }
    if reader.sees_word(b"range") {
        return range(alloc, reader);
    }
    asking(alloc, reader)
}

/// Any statement but a `set`.
pub fn plain(alloc: Global, reader: &mut Reader<'_>) -> Result<Statement, Stop>
    ensures reads { Reads factored.plain statement_tokens result reader.old reader.new }
    ensures small { IfOk result (λ s. IsSmall s) }
{
    if reader.sees_word(b"create") {
        return create(alloc, reader);
    }
    if reader.sees_word(b"alter") {
        return alter(alloc, reader);
    }
    if reader.sees_word(b"insert") {
        return insert(alloc, reader);
    }
    if reader.sees_word(b"delete") {
        return delete(alloc, reader);
    }
    if reader.sees_word(b"prefer") {
        return prefer(alloc, reader);
    }
    if reader.sees_word(b"copy") {
        return copy(alloc, reader);
    }
    telling(alloc, reader)
}
