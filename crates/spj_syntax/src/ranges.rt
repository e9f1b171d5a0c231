//! `range`: over the rows of one table, or over the witnesses of a query of several.

ghost use Rattle.std.specs.Prelude.{◌≡◌, ◌++◌, ◌∷◌, IfOk, codes};
ghost use Rattle.spj_syntax.specs.Lexemes.{Word};
ghost use Rattle.spj_syntax.specs.Reading.{Reads, aggregate_tokens, alone_tokens, behind_tokens, tail_tokens, from_tokens, from_behind_tokens, ranged_tokens};
ghost use Rattle.spj_syntax.specs.Shapes.{◌⨾◌};
ghost use Rattle.spj_syntax.specs.Written.{goal_tokens, join_goal_tokens, col_tokens, name_tokens, grouped_tokens, join_grouped_tokens, statement_tokens, IsSmall};
ghost use Rattle.spj_syntax.specs.Grammar as grammar;
ghost use Rattle.spj_syntax.specs.Factored as factored;

use crate::lists::{filtered, listed};
use crate::parts::col;
use crate::range_parts::{Asked, Parts, Rest, Several, Tested};
use crate::reader::{Reader, Stop};
use crate::{RawCol, RawGoal, RawJoinGoal, RawRange, Statement};
use cqa_value::{Items, Name, NoMemory};
use script_lex::Symbol;
use std::alloc::Global;

/// `group by NAME`, or nothing.
fn grouped(alloc: Global, reader: &mut Reader<'_>) -> Result<Option<Name>, Stop>
    ensures { Reads grammar.grouped grouped_tokens result reader.old reader.new }
{
    if reader.sees_word(b"group") {
        reader.advance();
        reader.word(b"by")?;
        let column = reader.name(alloc)?;
        return Ok(Some(column));
    }
    Ok(None)
}

/// `[where TEST and ..] [group by NAME]`.
fn alone(alloc: Global, reader: &mut Reader<'_>) -> Result<Tested, Stop>
    ensures { Reads (grammar.filtered grammar.test ⨾ grammar.grouped) alone_tokens result reader.old reader.new }
{
    let tests = filtered(alloc, reader)?;
    let group = grouped(alloc, reader)?;
    Ok(Tested { tests, group })
}

/// `group by COL`, or nothing.
fn join_grouped(alloc: Global, reader: &mut Reader<'_>) -> Result<Option<RawCol>, Stop>
    ensures { Reads grammar.join_grouped join_grouped_tokens result reader.old reader.new }
{
    if reader.sees_word(b"group") {
        reader.advance();
        reader.word(b"by")?;
        let group = col(alloc, reader)?;
        return Ok(Some(group));
    }
    Ok(None)
}

/// `, NAME, .. [where COND and ..] [group by COL]`.
fn behind(alloc: Global, reader: &mut Reader<'_>) -> Result<Several, Stop>
    ensures { Reads factored.behind behind_tokens result reader.old reader.new }
{
    reader.mark(Symbol::Comma)?;
    let others = listed(alloc, reader)?;
    let conds = filtered(alloc, reader)?;
    let group = join_grouped(alloc, reader)?;
    Ok(Several {
        others,
        conds,
        group,
    })
}

/// What stands behind the first table.
fn tail(alloc: Global, reader: &mut Reader<'_>) -> Result<Rest, Stop>
    ensures { Reads factored.tail tail_tokens result reader.old reader.new }
{
    if reader.sees_mark(Symbol::Comma) {
        let several = behind(alloc, reader)?;
        return Ok(Rest::Several(several));
    }
    let alone = alone(alloc, reader)?;
    Ok(Rest::Tested(alone))
}

/// `from NAME TAIL`.
fn from_tables(alloc: Global, reader: &mut Reader<'_>) -> Result<(Name, Rest), Stop>
    ensures { Reads factored.from_tables from_tokens result reader.old reader.new }
{
    reader.word(b"from")?;
    let first = reader.name(alloc)?;
    let tail = tail(alloc, reader)?;
    Ok((first, tail))
}

/// `from NAME, NAME, ..`.
fn from_several(alloc: Global, reader: &mut Reader<'_>) -> Result<(Name, Several), Stop>
    ensures { Reads factored.from_several from_behind_tokens result reader.old reader.new }
{
    reader.word(b"from")?;
    let first = reader.name(alloc)?;
    let behind = behind(alloc, reader)?;
    Ok((first, behind))
}

/// `sum`, `min` or `max`.
fn aggregate(reader: &mut Reader<'_>) -> Result<Asked, Stop>
    ensures { Reads grammar.aggregate aggregate_tokens result reader.old reader.new }
{
    if reader.sees_word(b"sum") {
        reader.advance();
        return Ok(Asked::Sum);
    }
    if reader.sees_word(b"min") {
        reader.advance();
        return Ok(Asked::Min);
    }
    reader.word(b"max")?;
    Ok(Asked::Max)
}

/// What is asked of a column of the one table, or of a column that is written without its table.
fn goal_of(aggregate: Asked, name: Name) -> RawGoal
    ensures { goal_tokens result ≡ aggregate_tokens aggregate ++ name_tokens name }
{
    match aggregate {
        Asked::Sum => RawGoal::Sum(name),
        Asked::Min => RawGoal::Min(name),
        Asked::Max => RawGoal::Max(name),
    }
}

/// What is asked of a column of several tables.
fn join_goal_of(aggregate: Asked, col: RawCol) -> RawJoinGoal
    ensures { join_goal_tokens result ≡ aggregate_tokens aggregate ++ col_tokens col }
{
    match aggregate {
        Asked::Sum => RawJoinGoal::Sum(col),
        Asked::Min => RawJoinGoal::Min(col),
        Asked::Max => RawJoinGoal::Max(col),
    }
}

/// A `range` behind its first word.
fn ranged(alloc: Global, reader: &mut Reader<'_>) -> Result<Parts, Stop>
    ensures { Reads factored.ranged ranged_tokens result reader.old reader.new }
{
    if reader.sees_word(b"count") {
        reader.advance();
        let counted = from_tables(alloc, reader)?;
        return Ok(Parts::Plain {
            goal: RawGoal::Count,
            first: counted.0,
            tail: counted.1,
        });
    }
    let aggregate = aggregate(reader)?;
    let name = reader.name(alloc)?;
    if reader.sees_mark(Symbol::Dot) {
        reader.advance();
        let column = reader.name(alloc)?;
        let several = from_several(alloc, reader)?;
        let col = RawCol {
            table: Some(name),
            name: column,
        };
        return Ok(Parts::Dotted {
            goal: join_goal_of(aggregate, col),
            first: several.0,
            behind: several.1,
        });
    }
    let tables = from_tables(alloc, reader)?;
    Ok(Parts::Plain {
        goal: goal_of(aggregate, name),
        first: tables.0,
        tail: tables.1,
    })
}

/// The same over several tables: its column is written without its table.
fn lifted(goal: RawGoal) -> RawJoinGoal
    ensures { join_goal_tokens result ≡ goal_tokens goal }
{
    match goal {
        RawGoal::Count => RawJoinGoal::Count,
        RawGoal::Sum(name) => RawJoinGoal::Sum(RawCol { table: None, name }),
        RawGoal::Min(name) => RawJoinGoal::Min(RawCol { table: None, name }),
        RawGoal::Max(name) => RawJoinGoal::Max(RawCol { table: None, name }),
    }
}

/// A name and then others.
fn with_first(first: Name, others: Items<Name>) -> Result<Items<Name>, NoMemory>
    ensures { IfOk result (λ names. names ≡ first ∷ others) }
{
    let mut names = others.into_vec();
    names.insert(0, first)?;
    Ok(Items::from_vec(names))
}

/// A `range` over several tables.
fn joined(goal: RawJoinGoal, first: Name, behind: Several) -> Result<Statement, NoMemory>
    ensures written { IfOk result (λ s. statement_tokens s ≡ Word (codes "range") ∷ (join_goal_tokens goal ++ from_behind_tokens (first, behind))) }
    ensures small { IfOk result (λ s. IsSmall s) }
{
    let tables = with_first(first, behind.others)?;
    let range = RawRange {
        goal,
        tables,
        conds: behind.conds,
        group: behind.group,
    };
    Ok(Statement::RangeJoin { range })
}

/// A `range` whose goal has no dot.
fn plain(goal: RawGoal, first: Name, tail: Rest) -> Result<Statement, NoMemory>
    ensures written { IfOk result (λ s. statement_tokens s ≡ Word (codes "range") ∷ (goal_tokens goal ++ from_tokens (first, tail))) }
    ensures small { IfOk result (λ s. IsSmall s) }
{
    match tail {
        Rest::Several(behind) => joined(lifted(goal), first, behind),
        Rest::Tested(alone) => Ok(Statement::Range {
            goal,
            table: first,
            tests: alone.tests,
            group: alone.group,
        }),
    }
}

/// The statement of what was read behind its first word.
fn statement_of(ranged: Parts) -> Result<Statement, NoMemory>
    ensures written { IfOk result (λ s. statement_tokens s ≡ Word (codes "range") ∷ ranged_tokens ranged) }
    ensures small { IfOk result (λ s. IsSmall s) }
{
    match ranged {
        Parts::Plain { goal, first, tail } => plain(goal, first, tail),
        Parts::Dotted {
            goal,
            first,
            behind,
        } => joined(goal, first, behind),
    }
}

/// `range GOAL from NAME [where TEST and ..] [group by NAME]`, or
/// `range GOAL from NAME, NAME, .. [where COND and ..] [group by COL]`.
pub fn range(alloc: Global, reader: &mut Reader<'_>) -> Result<Statement, Stop>
    ensures reads { Reads factored.range statement_tokens result reader.old reader.new }
    ensures small { IfOk result (λ s. IsSmall s) }
{
    reader.word(b"range")?;
    let ranged = ranged(alloc, reader)?;
    let statement = statement_of(ranged)?;
    Ok(statement)
}
