//! Lists of a statement: items with a token between them, as rows, columns, names, tests and conditions.

ghost use Rattle.std.specs.Prelude.{◌≡◌, ◌<◌, ◌≤◌, ◌++◌, ◌∷◌, [], refl, length, IfOk, All};
ghost use Rattle.spj_syntax.specs.Reading.{Reads, Pushes, separator, separator_lexeme, each_before};
ghost use Rattle.spj_syntax.specs.Limits.{most_items, most_tokens};
ghost use Rattle.spj_syntax.specs.Lexemes.{Mark};
ghost use Rattle.spj_syntax.specs.Shapes.{mark, one, ◌⨾◌};
ghost use Rattle.spj_syntax.specs.Walk.{Opens};
ghost use Rattle.spj_syntax.specs.Written.{between, listed_tokens, anded_tokens, filtered_tokens, literal_tokens, column_tokens, side_tokens};
ghost use Rattle.cqa_model.specs.Valid.{IsName};
ghost use Rattle.spj_syntax.specs.Grammar as grammar;
ghost use Rattle.spj_syntax.specs.Factored as factored;

use crate::parts::{col, column, literal, op, op_but_equal};
use crate::reader::{Reader, Stop};
use crate::{RawCol, RawCond, RawTest};
use cqa_model::{Column, Op};
use cqa_value::{Items, Name, Row, Value};
use script_lex::Symbol;
use std::alloc::Global;

/// What stands between the items of a list.
#[derive(Clone, Copy)]
pub enum Between {
    Comma,
    And,
    Union,
}

/// An item of a list.
pub trait Piece: Sized + Drop {
    ghost use Rattle.spj_syntax.specs.Shapes.{Shape};
    ghost use Rattle.spj_syntax.specs.Walk.{nullable};
    ghost use Rattle.spj_syntax.specs.Lexemes.{Lexeme};
    ghost use Rattle.std.specs.Prelude.{List, false};

    ghost shape: { Shape };

    ghost tokens: { Self → List Lexeme };

    ghost kept: { Self → Type 0 } = { λ _. Unit {0} };

    ghost takes_some: { nullable shape ≡ false };

    fn piece(alloc: Global, reader: &mut Reader<'_>) -> Result<Self, Stop>
        ensures reads { Reads shape tokens result reader.old reader.new }
        ensures kept { IfOk result (λ v. kept v) };
}

/// Whether another item of a list follows.
#[inline(always)]
fn sees(reader: &Reader<'_>, between: Between) -> bool
    ensures { Opens result (one (separator between)) reader.now }
{
    match between {
        Between::Comma => reader.sees_mark(Symbol::Comma),
        Between::And => reader.sees_word(b"and"),
        Between::Union => reader.sees_word(b"union"),
    }
}

/// Reads an item and puts it behind the others.
#[inline(always)]
fn push_piece<P: Piece>(
    alloc: Global,
    reader: &mut Reader<'_>,
    items: &mut Items<P>,
) -> Result<(), Stop>
    ensures pushes { Pushes P.shape P.tokens P.kept result items.old items.new reader.old reader.new }
    ensures few { length reader.old ≤ most_tokens }
{
    let _count = reader.count();
    let item = P::piece(alloc, reader)?;
    items.push(item)?;
    Ok(())
}

/// One or more with a token between them, in a list with room for so many at first.
#[inline(always)]
pub fn separated<P: Piece>(
    alloc: Global,
    reader: &mut Reader<'_>,
    token: Between,
    room: usize,
) -> Result<Items<P>, Stop>
    ensures reads { Reads (grammar.separated (separator token) P.shape) (between (separator_lexeme token) P.tokens) result reader.old reader.new }
    ensures some { IfOk result (λ v. 0 < length v) }
    ensures few { IfOk result (λ v. length v ≤ most_items) }
    ensures kept { IfOk result (λ v. All (λ x. P.kept x) v) }
{
    let mut items = Items::with_capacity(alloc, room)?;
    push_piece(alloc, reader, &mut items)?;
    'items: while sees(reader, token) {
        reader.advance();
        push_piece(alloc, reader, &mut items)?;
    }
    Ok(items)
}

/// One or more with commas between them.
#[inline(always)]
pub fn listed<P: Piece>(alloc: Global, reader: &mut Reader<'_>) -> Result<Items<P>, Stop>
    ensures reads { Reads (grammar.listed P.shape) (listed_tokens P.tokens) result reader.old reader.new }
    ensures some { IfOk result (λ v. 0 < length v) }
    ensures few { IfOk result (λ v. length v ≤ most_items) }
    ensures kept { IfOk result (λ v. All (λ x. P.kept x) v) }
{
    let room = reader.listed_ahead();
    separated(alloc, reader, Between::Comma, room)
}

/// One or more with `and` between them.
pub fn anded<P: Piece>(alloc: Global, reader: &mut Reader<'_>) -> Result<Items<P>, Stop>
    ensures reads { Reads (grammar.anded P.shape) (anded_tokens P.tokens) result reader.old reader.new }
    ensures some { IfOk result (λ v. 0 < length v) }
    ensures few { IfOk result (λ v. length v ≤ most_items) }
{
    separated(alloc, reader, Between::And, 0)
}

/// What follows `where`, or nothing.
pub fn filtered<P: Piece>(alloc: Global, reader: &mut Reader<'_>) -> Result<Items<P>, Stop>
    ensures few { IfOk result (λ v. length v ≤ most_items) }
    ensures reads { Reads (grammar.filtered P.shape) (filtered_tokens P.tokens) result reader.old reader.new }
{
    if reader.sees_word(b"where") {
        reader.advance();
        return anded(alloc, reader);
    }
    Ok(Items::new(alloc))
}

/// A column and the comma behind it.
fn column_before_comma(alloc: Global, reader: &mut Reader<'_>) -> Result<Column, Stop>
    ensures reads { Reads (grammar.column ⨾ one (mark Symbol.Comma)) (λ c. column_tokens c ++ Mark Symbol.Comma ∷ []) result reader.old reader.new }
    ensures named { IfOk result (λ c. IsName c.name) }
{
    let column = column(alloc, reader)?;
    reader.mark(Symbol::Comma)?;
    Ok(column)
}

/// One or more columns, each with a comma behind it.
pub fn columns(alloc: Global, reader: &mut Reader<'_>) -> Result<Items<Column>, Stop>
    ensures named { IfOk result (λ v. All (λ c. IsName c.name) v) }
    ensures reads { Reads factored.columns (each_before (Mark Symbol.Comma) column_tokens) result reader.old reader.new }
    ensures some { IfOk result (λ v. 0 < length v) }
{
    let mut items = Items::new(alloc);
    let first = column_before_comma(alloc, reader)?;
    items.push(first)?;
    'items: while reader.sees_name() {
        let item = column_before_comma(alloc, reader)?;
        items.push(item)?;
    }
    Ok(items)
}

/// One or more literals with commas between them.
#[inline(always)]
pub fn literals(alloc: Global, reader: &mut Reader<'_>) -> Result<Row, Stop>
    ensures reads { Reads (grammar.listed grammar.literal) (listed_tokens literal_tokens) result reader.old reader.new }
    ensures some { IfOk result (λ v. 0 < length v) }
{
    let values = listed::<Value>(alloc, reader)?;
    Ok(Row::from_items(values))
}

impl Piece for Value {
    ghost use Rattle.spj_syntax.specs.Grammar.{literal};
    ghost use Rattle.spj_syntax.specs.Written.{literal_tokens};

    ghost shape = { literal };

    ghost tokens = { literal_tokens };

    ghost takes_some = { refl };

    #[inline(always)]
    fn piece(alloc: Global, reader: &mut Reader<'_>) -> Result<Self, Stop> {
        literal(alloc, reader)
    }
}

impl Piece for Name {
    ghost use Rattle.spj_syntax.specs.Grammar.{a_name};
    ghost use Rattle.spj_syntax.specs.Written.{name_tokens};
    ghost use Rattle.cqa_model.specs.Valid.{IsName};

    ghost shape = { a_name };

    ghost tokens = { name_tokens };

    ghost takes_some = { refl };

    ghost kept = { λ n. IsName n };

    fn piece(alloc: Global, reader: &mut Reader<'_>) -> Result<Self, Stop> {
        reader.name(alloc)
    }
}

impl Piece for RawCol {
    ghost use Rattle.spj_syntax.specs.Grammar as grammar;
    ghost use Rattle.spj_syntax.specs.Written.{col_tokens};

    ghost shape = { grammar.col };

    ghost tokens = { col_tokens };

    ghost takes_some = { refl };

    fn piece(alloc: Global, reader: &mut Reader<'_>) -> Result<Self, Stop> {
        col(alloc, reader)
    }
}

impl Piece for Row {
    ghost use Rattle.spj_syntax.specs.Grammar as grammar;
    ghost use Rattle.spj_syntax.specs.Written.{row_tokens, IsSome};

    ghost shape = { grammar.row };

    ghost tokens = { row_tokens };

    ghost takes_some = { refl };

    ghost kept = { λ row. IsSome row };

    #[inline(always)]
    fn piece(alloc: Global, reader: &mut Reader<'_>) -> Result<Self, Stop> {
        reader.mark(Symbol::Open)?;
        let values = literals(alloc, reader)?;
        reader.mark(Symbol::Close)?;
        Ok(values)
    }
}

impl Piece for RawTest {
    ghost use Rattle.spj_syntax.specs.Grammar.{test};
    ghost use Rattle.spj_syntax.specs.Written.{test_tokens};

    ghost shape = { test };

    ghost tokens = { test_tokens };

    ghost takes_some = { refl };

    fn piece(alloc: Global, reader: &mut Reader<'_>) -> Result<Self, Stop> {
        let col = reader.name(alloc)?;
        let op = op(reader)?;
        let value = literal(alloc, reader)?;
        Ok(RawTest { col, op, value })
    }
}

/// The right side of a condition: `=` and a column, or an operator and a literal.
#[derive(Drop)]
pub enum RawSide {
    Column(RawCol),
    Literal { op: Op, value: Value },
}

/// `= COL`, or an operator and a literal.
fn side(alloc: Global, reader: &mut Reader<'_>) -> Result<RawSide, Stop>
    ensures { Reads factored.side side_tokens result reader.old reader.new }
{
    if reader.sees_mark(Symbol::Eq) {
        reader.advance();
        if reader.sees_name() {
            let right = col(alloc, reader)?;
            return Ok(RawSide::Column(right));
        }
        let same = literal(alloc, reader)?;
        return Ok(RawSide::Literal {
            op: Op::Eq,
            value: same,
        });
    }
    let op = op_but_equal(reader)?;
    let value = literal(alloc, reader)?;
    Ok(RawSide::Literal { op, value })
}

impl Piece for RawCond {
    ghost use Rattle.spj_syntax.specs.Factored.{cond};
    ghost use Rattle.spj_syntax.specs.Written.{cond_tokens};

    ghost shape = { cond };

    ghost tokens = { cond_tokens };

    ghost takes_some = { refl };

    fn piece(alloc: Global, reader: &mut Reader<'_>) -> Result<Self, Stop> {
        let left = col(alloc, reader)?;
        let right = side(alloc, reader)?;
        match right {
            RawSide::Column(right) => Ok(RawCond::Join { left, right }),
            RawSide::Literal { op, value } => Ok(RawCond::Test {
                col: left,
                op,
                value,
            }),
        }
    }
}
