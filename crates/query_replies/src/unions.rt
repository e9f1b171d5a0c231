//! What is told of the parts of a union: their classes, and their plans in SQL.

ghost use Rattle.std.specs.Prelude.{◌≡◌, [], IfOk, IfSome, IsNone};
ghost use Rattle.query_resolve.specs.Resolved.{AreQueriesOf, IsQueryOf};
ghost use Rattle.query_replies.specs.Classes.{AreClassesOf, IsPartClassOf, TellsClasses};
ghost use Rattle.query_replies.specs.Parts.{HasText, HaveTexts, IsFirstUnplanned, HasCyclicAttacks, TellsSqlOfParts};

use crate::classes::class_of_query;
use crate::shares::{shared_name, shares_of};
use crate::texts::sql_of_query;
use cqa_model::Query;
use cqa_value::{Items, NoMemory};
use query_strategy::shared_table;
use reply_text::{PartClass, Reply};
use spj_syntax::Select;
use std::alloc::Global;
use table_blocks::{Bound, Database};

/// The class of a part of a union.
fn class_of_part(
    alloc: Global,
    _database: &Database,
    select: &Select,
    query: &Query,
) -> Result<PartClass, NoMemory>
    requires { IsQueryOf _database.now select.now query.now }
    ensures { IfOk result (IsPartClassOf _database.now select.now) }
{
    class_of_query(alloc, query, select.tables.as_slice())
}

/// The class of each part of a union.
fn classes_of(
    alloc: Global,
    database: &Database,
    selects: &[Select],
    parts: &[Query],
) -> Result<Items<PartClass>, NoMemory>
    requires { AreQueriesOf database.now selects.now parts.now }
    ensures { IfOk result (AreClassesOf database.now selects.now) }
{
    let mut classes = Items::new(alloc);
    for at in 0..parts.len() {
        classes.push(class_of_part(alloc, database, &selects[at], &parts[at])?)?;
    }
    Ok(classes)
}

/// Answers the class of each part of a union, and whether the parts are apart.
///
/// # Errors
///
/// `NoMemory` where memory is refused.
pub fn class_of_parts(
    alloc: Global,
    database: &Database,
    selects: &[Select],
    parts: &[Query],
) -> Result<Reply, NoMemory>
    requires { AreQueriesOf database.now selects.now parts.now }
    ensures { IfOk result (TellsClasses database.now selects.now parts.now) }
{
    let shared = shared_name(alloc, database, parts)?;
    match classes_of(alloc, database, selects, parts) {
        Ok(parts) => Ok(Reply::ClassifiedParts { parts, shared }),
        Err(fault) => {
            drop(shared);
            Err(fault)
        }
    }
}

/// The plan in SQL of a part of a union, or nothing where it has no plan.
fn text_of_part(
    alloc: Global,
    database: &Database,
    select: &Select,
    query: &Query,
) -> Result<Option<Items<u8>>, NoMemory>
    requires { IsQueryOf database.now select.now query.now }
    ensures sql { IfOk result (λ found. IfSome found (HasText database.now select.now query.now)) }
    ensures none { IfOk result (λ found. IsNone found → HasCyclicAttacks query.now) }
{
    let bound = Bound::new(database, query);
    sql_of_query(alloc, &bound, select.tables.as_slice())
}

/// Appends the plan in SQL of each part of a union up to the first that has none, and has the number of that one, from 1.
fn push_texts(
    alloc: Global,
    database: &Database,
    selects: &[Select],
    parts: &[Query],
    texts: &mut Items<Items<u8>>,
) -> Result<Option<u32>, NoMemory>
    requires parts { AreQueriesOf database.now selects.now parts.now }
    requires none { texts.old ≡ [] }
    ensures all { IfOk result (λ found. IsNone found → HaveTexts database.now selects.now parts.now texts.new) }
    ensures first { IfOk result (λ found. IfSome found (IsFirstUnplanned parts.now)) }
{
    for at in 0..parts.len() {
        match text_of_part(alloc, database, &selects[at], &parts[at])? {
            Some(text) => texts.push(text)?,
            None => return Ok(Some(at as u32 + 1)),
        }
    }
    Ok(None)
}

/// Answers the plans in SQL of the parts of a union, or that two parts share a table that isn't strict.
fn told_of(
    alloc: Global,
    database: &Database,
    _selects: &[Select],
    parts: &[Query],
    texts: Items<Items<u8>>,
) -> Result<Reply, NoMemory>
    requires parts { AreQueriesOf database.now _selects.now parts.now }
    requires texts { HaveTexts database.now _selects.now parts.now texts }
    ensures { IfOk result (TellsSqlOfParts database.now _selects.now parts.now) }
{
    match shared_table(parts) {
        None => Ok(Reply::SqlParts(texts)),
        Some(shared) => {
            drop(texts);
            shares_of(alloc, database, parts, shared)
        }
    }
}

/// Answers the plans in SQL of the parts of a union; or the first part that has none; or else which table that isn't strict stands
/// in two parts.
///
/// # Errors
///
/// `NoMemory` where memory is refused.
pub fn sql_of_parts(
    alloc: Global,
    database: &Database,
    selects: &[Select],
    parts: &[Query],
) -> Result<Reply, NoMemory>
    requires { AreQueriesOf database.now selects.now parts.now }
    ensures { IfOk result (TellsSqlOfParts database.now selects.now parts.now) }
{
    let mut texts = Items::new(alloc);
    match push_texts(alloc, database, selects, parts, &mut texts) {
        Ok(None) => told_of(alloc, database, selects, parts, texts),
        Ok(Some(number)) => {
            drop(texts);
            Ok(Reply::NoPlanOf(number))
        }
        Err(fault) => {
            drop(texts);
            Err(fault)
        }
    }
}
