//! Tables and queries that are made of statements, as the cases write them, and whether what comes of a query is wanted.

ghost use Rattle.std.specs.Prelude.{◌<◌, ◌≤◌, ◌^◌, All, IfSome, IsTrue, length};
ghost use Rattle.cqa_model.specs.Query.{FitsDatabase};
ghost use Rattle.spj_syntax.specs.Written.{IsSmall};

use cqa_model::Query;
use cqa_value::{Items, Name, Row};
use query_resolve::{resolve, resolve_schema};
use script_lex::tokens;
use spj_syntax::{RawSchema, Select, Statement, parse};
use std::alloc::Global;
use table_blocks::{Bound, Database};

/// The statement that a text is.
fn read(alloc: Global, text: &[u8]) -> Option<Statement>
    requires { length text.now ≤ 1_000 }
    ensures { IfSome result IsSmall }
{
    match tokens(alloc, text) {
        Ok(tokens) => match parse(alloc, text, tokens.as_slice()) {
            Ok(statement) => Some(statement),
            Err(_) => None,
        },
        Err(_) => None,
    }
}

/// Whether a table was made.
fn create(alloc: Global, db: &mut Database, raw: &RawSchema) -> bool {
    match resolve_schema(alloc, db, raw) {
        Ok(schema) => db.create(alloc, schema).is_ok(),
        Err(refused) => {
            drop(refused);
            false
        }
    }
}

/// Whether rows were put into a table.
fn insert(db: &mut Database, name: &Name, rows: Items<Row>) -> bool
    requires { length rows < 2 ^ 32 }
{
    match db.find(name) {
        Some(table) if table < db.count() => match table_changes::insert(db, table, rows) {
            Ok(_) => true,
            Err(refused) => {
                drop(refused);
                false
            }
        },
        _ => {
            drop(rows);
            false
        }
    }
}

/// Whether a statement made a table or put rows into one.
fn made(alloc: Global, db: &mut Database, text: &[u8]) -> bool
    requires { length text.now ≤ 1_000 }
{
    match read(alloc, text) {
        Some(Statement::Create { schema }) => {
            let done = create(alloc, db, &schema);
            drop(schema);
            done
        }
        Some(Statement::Insert { table, rows }) => {
            let done = insert(db, &table, rows);
            drop(table);
            done
        }
        other => {
            drop(other);
            false
        }
    }
}

/// Whether all statements are short and each of them is done.
pub fn all_made(alloc: Global, db: &mut Database, texts: &[&str]) -> bool
    ensures { IsTrue result → All (λ text. length text.now ≤ 1_000) texts.now }
{
    for text in texts {
        if text.len() > 1_000 || !made(alloc, db, text.as_bytes()) {
            return false;
        }
    }
    true
}

/// The tables that some statements make, and the rows that others put into them, where each statement is short and is done.
pub fn database(alloc: Global, tables: &[&str], rows: &[&str]) -> Option<Database> {
    let mut db = Database::new(alloc);
    if all_made(alloc, &mut db, tables) && all_made(alloc, &mut db, rows) {
        return Some(db);
    }
    drop(db);
    None
}

/// The query that is written, over the tables.
fn resolved(alloc: Global, db: &Database, select: &Select) -> Option<Query>
    ensures { IfSome result (λ query. FitsDatabase query db.now) }
{
    match resolve(alloc, db, select) {
        Ok(query) => Some(query),
        Err(refused) => {
            drop(refused);
            None
        }
    }
}

/// The query of a short question, over the tables.
pub fn query_of(alloc: Global, db: &Database, text: &str) -> Option<Query>
    ensures { IfSome result (λ query. FitsDatabase query db.now) }
{
    if text.len() > 1_000 {
        return None;
    }
    match read(alloc, text.as_bytes()) {
        Some(Statement::Asking { select, .. }) => {
            let found = resolved(alloc, db, &select);
            drop(select);
            found
        }
        other => {
            drop(other);
            None
        }
    }
}

/// What is wanted of a question.
pub trait Wanted {
    /// Whether it comes of the question's query, over the tables.
    fn comes(&self, alloc: Global, bound: &Bound<'_>) -> bool;
}

/// Whether what is wanted comes of a question, over the tables.
fn comes_of<W: Wanted>(alloc: Global, db: &Database, question: &str, wanted: &W) -> bool {
    match query_of(alloc, db, question) {
        Some(query) => {
            let right = wanted.comes(alloc, &Bound::new(db, &query));
            drop(query);
            right
        }
        None => false,
    }
}

/// Whether what is wanted comes of a question, over tables that statements make and fill.
pub fn is_answered<W: Wanted>(
    alloc: Global,
    tables: &[&str],
    rows: &[&str],
    question: &str,
    wanted: &W,
) -> bool {
    match database(alloc, tables, rows) {
        Some(db) => {
            let right = comes_of(alloc, &db, question, wanted);
            drop(db);
            right
        }
        None => false,
    }
}
