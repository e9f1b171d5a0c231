//! Queries, and the statements that ask of one query or of several.

ghost use Rattle.std.specs.Prelude.{◌≡◌, ◌<◌, ◌++◌, IfOk, length, refl, codes};
ghost use Rattle.spj_syntax.specs.Lexemes.{Word};
ghost use Rattle.spj_syntax.specs.Reading.{Reads, selected_tokens, united_verb_tokens, verb_of};
ghost use Rattle.spj_syntax.specs.Walk.{Opens};
ghost use Rattle.spj_syntax.specs.Written.{IsSmall, between, head_tokens, listed_tokens, literal_tokens, row_for_tokens, row_tokens, select_tokens, selects_tokens, statement_tokens, verb_tokens};
ghost use Rattle.spj_syntax.specs.Grammar as grammar;
ghost use Rattle.spj_syntax.specs.Factored as factored;

use crate::lists::{Between, Piece, filtered, listed, literals, separated};
use crate::reader::{Reader, Stop};
use crate::{RawCol, Select, Selects, Statement, Verb};
use cqa_value::{Items, Row};
use script_lex::Symbol;
use std::alloc::Global;

/// The columns of a `select`, or none for `exists`.
fn head(alloc: Global, reader: &mut Reader<'_>) -> Result<Items<RawCol>, Stop>
    ensures { Reads grammar.head head_tokens result reader.old reader.new }
{
    if reader.sees_word(b"select") {
        reader.advance();
        return listed(alloc, reader);
    }
    reader.word(b"exists")?;
    Ok(Items::new(alloc))
}

/// `HEAD from NAME, .. [where COND and ..]`.
fn query(alloc: Global, reader: &mut Reader<'_>) -> Result<Select, Stop>
    ensures { Reads factored.query select_tokens result reader.old reader.new }
{
    let columns = head(alloc, reader)?;
    reader.word(b"from")?;
    let tables = listed(alloc, reader)?;
    let conds = filtered(alloc, reader)?;
    Ok(Select {
        columns,
        tables,
        conds,
    })
}

impl Piece for Select {
    ghost use Rattle.spj_syntax.specs.Factored.{query};
    ghost use Rattle.spj_syntax.specs.Written.{select_tokens};

    ghost shape = { query };

    ghost tokens = { select_tokens };

    ghost takes_some = { refl };

    fn piece(alloc: Global, reader: &mut Reader<'_>) -> Result<Self, Stop> {
        query(alloc, reader)
    }
}

/// One query, or several with `union` between them.
#[derive(Drop)]
pub enum Selected {
    One(Select),
    Union(Selects),
}

/// The queries of a list, one or more.
fn one_or_union(read: Items<Select>) -> Selected
    requires some { 0 < length read }
    ensures { selected_tokens result ≡ between (Word (codes "union")) select_tokens read }
{
    if read.len() >= 2 {
        return Selected::Union(Selects { parts: read });
    }
    let select = read.into_vec().swap_remove(0);
    Selected::One(select)
}

/// `QUERY [union QUERY ..]`.
fn united(alloc: Global, reader: &mut Reader<'_>) -> Result<Selected, Stop>
    ensures { Reads factored.united selected_tokens result reader.old reader.new }
{
    let read = separated(alloc, reader, Between::Union, 1)?;
    Ok(one_or_union(read))
}

/// The literals of a row, or none before its `)`.
fn optional_literals(alloc: Global, reader: &mut Reader<'_>) -> Result<Row, Stop>
    ensures { Reads (grammar.optional (grammar.listed grammar.literal)) (listed_tokens literal_tokens) result reader.old reader.new }
{
    if reader.sees_literal() {
        return literals(alloc, reader);
    }
    Ok(Row::new(alloc))
}

/// `(LITERAL, ..)`; the row may be empty.
fn any_row(alloc: Global, reader: &mut Reader<'_>) -> Result<Row, Stop>
    ensures { Reads grammar.any_row row_tokens result reader.old reader.new }
{
    reader.mark(Symbol::Open)?;
    let row = optional_literals(alloc, reader)?;
    reader.mark(Symbol::Close)?;
    Ok(row)
}

/// `row ROW for`.
fn row_for(alloc: Global, reader: &mut Reader<'_>) -> Result<Row, Stop>
    ensures { Reads grammar.row_for row_for_tokens result reader.old reader.new }
{
    reader.word(b"row")?;
    let row = any_row(alloc, reader)?;
    reader.word(b"for")?;
    Ok(row)
}

/// `against row ROW for` or `prove row ROW for`.
fn row_verb(alloc: Global, reader: &mut Reader<'_>) -> Result<Verb, Stop>
    ensures { Reads grammar.row_verb verb_tokens result reader.old reader.new }
{
    if reader.sees_word(b"against") {
        reader.advance();
        let doubted = row_for(alloc, reader)?;
        return Ok(Verb::Against { row: doubted });
    }
    reader.word(b"prove")?;
    let row = row_for(alloc, reader)?;
    Ok(Verb::Prove { row })
}

/// What is asked of one query alone: `disputed`, `plan`, or what is asked of a row.
fn verb(alloc: Global, reader: &mut Reader<'_>) -> Result<Verb, Stop>
    ensures { Reads grammar.verb verb_tokens result reader.old reader.new }
{
    if reader.sees_word(b"disputed") {
        reader.advance();
        return Ok(Verb::Disputed);
    }
    if reader.sees_word(b"plan") {
        reader.advance();
        return Ok(Verb::Plan);
    }
    row_verb(alloc, reader)
}

/// A verb that takes one query, and the query.
fn single(alloc: Global, reader: &mut Reader<'_>) -> Result<Statement, Stop>
    ensures reads { Reads factored.single statement_tokens result reader.old reader.new }
    ensures small { IfOk result (λ s. IsSmall s) }
{
    let verb = verb(alloc, reader)?;
    let select = query(alloc, reader)?;
    Ok(Statement::Asking { verb, select })
}

/// What is asked of one query or of several.
#[derive(Drop)]
pub enum UnitedVerb {
    Ask,
    Possible,
    Classify,
    Sql,
    Explain { row: Row },
}

/// Whether a verb stands first that takes one query or several.
fn sees_united_verb(reader: &Reader<'_>) -> bool
    ensures { Opens result grammar.united_verb reader.now }
{
    if reader.sees_word(b"ask") {
        return true;
    }
    if reader.sees_word(b"possible") {
        return true;
    }
    if reader.sees_word(b"classify") {
        return true;
    }
    if reader.sees_word(b"sql") {
        return true;
    }
    reader.sees_word(b"explain")
}

/// `ask`, `possible`, `classify`, `sql`, or `explain row ROW for`.
fn united_verb(alloc: Global, reader: &mut Reader<'_>) -> Result<UnitedVerb, Stop>
    ensures { Reads grammar.united_verb united_verb_tokens result reader.old reader.new }
{
    if reader.sees_word(b"ask") {
        reader.advance();
        return Ok(UnitedVerb::Ask);
    }
    if reader.sees_word(b"possible") {
        reader.advance();
        return Ok(UnitedVerb::Possible);
    }
    if reader.sees_word(b"classify") {
        reader.advance();
        return Ok(UnitedVerb::Classify);
    }
    if reader.sees_word(b"sql") {
        reader.advance();
        return Ok(UnitedVerb::Sql);
    }
    reader.word(b"explain")?;
    let row = row_for(alloc, reader)?;
    Ok(UnitedVerb::Explain { row })
}

/// The verb that is asked of one query.
fn verb_of(verb: UnitedVerb) -> Verb
    ensures { result ≡ verb_of verb }
{
    match verb {
        UnitedVerb::Ask => Verb::Ask,
        UnitedVerb::Possible => Verb::Possible,
        UnitedVerb::Classify => Verb::Classify,
        UnitedVerb::Sql => Verb::Sql,
        UnitedVerb::Explain { row } => Verb::Explain { row },
    }
}

/// What is asked of the parts of a union.
fn of_union(verb: UnitedVerb, selects: Selects) -> Statement
    ensures tokens { statement_tokens result ≡ united_verb_tokens verb ++ selects_tokens selects }
    ensures small { IsSmall result }
{
    match verb {
        UnitedVerb::Ask => Statement::AskUnion(selects),
        UnitedVerb::Possible => Statement::PossibleUnion(selects),
        UnitedVerb::Classify => Statement::ClassifyUnion(selects),
        UnitedVerb::Sql => Statement::SqlUnion(selects),
        UnitedVerb::Explain { row } => Statement::ExplainUnion { row, selects },
    }
}

/// What is asked of one query or of the parts of a union.
fn of_selected(verb: UnitedVerb, selected: Selected) -> Statement
    ensures tokens { statement_tokens result ≡ united_verb_tokens verb ++ selected_tokens selected }
    ensures small { IsSmall result }
{
    match selected {
        Selected::One(select) => Statement::Asking {
            verb: verb_of(verb),
            select,
        },
        Selected::Union(selects) => of_union(verb, selects),
    }
}

/// A verb that takes one query or several, and these.
fn several(alloc: Global, reader: &mut Reader<'_>) -> Result<Statement, Stop>
    ensures reads { Reads factored.several statement_tokens result reader.old reader.new }
    ensures small { IfOk result (λ s. IsSmall s) }
{
    let verb = united_verb(alloc, reader)?;
    let selected = united(alloc, reader)?;
    Ok(of_selected(verb, selected))
}

/// What is asked of one query or of several.
pub fn asking(alloc: Global, reader: &mut Reader<'_>) -> Result<Statement, Stop>
    ensures reads { Reads factored.asking statement_tokens result reader.old reader.new }
    ensures small { IfOk result (λ s. IsSmall s) }
{
    if sees_united_verb(reader) {
        return several(alloc, reader);
    }
    single(alloc, reader)
}
