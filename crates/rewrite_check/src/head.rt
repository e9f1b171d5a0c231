//! The first part of a certificate: its tables, and the row that is to be proved.

ghost use Rattle.std.specs.Prelude.{◌≡◌, ◌<◌, List, ℕ, IfOk, OnOk, IfErr, IsTrue, ◌↔◌, None, MatchOption, length};
ghost use Rattle.cqa_model.specs.declared.query.Query.{Query as QueryValue};
ghost use Rattle.cqa_model.specs.Query.{FitsDatabase};
ghost use Rattle.query_resolve.specs.Checks.{answer_fault};
ghost use Rattle.rewrite_check.specs.Spelling.{CanAsk, CanCreate, Created, HasCreated, LeadsOn, Stage};
ghost use Rattle.rewrite_check.specs.Reading.{GoesFrom, HasOpening, IfRefused, IsBadStatement, IsClaimOf, asked_stage};

use crate::certificate::Claim;
use crate::opening::{Opening, opening_of};
use crate::script::Script;
use cqa_model::{MOST_ATOMS, Query};
use cqa_value::{Fail, NoMemory, Row};
use query_resolve::{check_row, resolve, resolve_schema};
use spj_syntax::{RawSchema, Select};
use std::alloc::Global;
use table_blocks::{Bound, Database};

/// Creates a table, and says whether it can be created: there are fewer than a query has atoms, and no check of it fails.
fn create(alloc: Global, tables: &mut Database, raw: &RawSchema) -> Result<bool, NoMemory>
    ensures can { IfOk result (λ made. IsTrue made ↔ CanCreate tables.old raw.now) }
    ensures table { IfOk result (λ made. IsTrue made → HasCreated tables.old raw.now tables.new) }
{
    if tables.count() >= MOST_ATOMS {
        return Ok(false);
    }
    match resolve_schema(alloc, tables, raw) {
        Ok(schema) => {
            tables.create(alloc, schema)?;
            Ok(true)
        }
        Err(Fail::NoMemory) => Err(NoMemory),
        Err(Fail::Refused(refusal)) => {
            drop(refusal);
            Ok(false)
        }
    }
}

/// Whether a row has a value for each answer column of a query, of the column's kind.
fn answers(tables: &Database, query: &Query, row: &Row) -> bool
    requires { FitsDatabase query.now tables.now }
    ensures { IsTrue result ↔ (answer_fault tables.now query.now row.now ≡ None) }
{
    let bound = Bound::new(tables, query);
    match check_row(&bound, row) {
        Ok(()) => true,
        Err(refusal) => {
            drop(refusal);
            false
        }
    }
}

/// The query of a select, where no check of it fails, and none of the row.
fn query_for(
    alloc: Global,
    tables: &Database,
    row: &Row,
    select: &Select,
) -> Result<Option<Query>, NoMemory>
    ensures { IfOk result (λ found. MatchOption found ((query : QueryValue) → CanAsk tables.now select.now query row.now → ⊥) (λ query. CanAsk tables.now select.now query row.now)) }
{
    match resolve(alloc, tables, select) {
        Ok(query) => {
            if answers(tables, &query, row) {
                return Ok(Some(query));
            }
            drop(query);
            Ok(None)
        }
        Err(Fail::NoMemory) => Err(NoMemory),
        Err(Fail::Refused(refusal)) => {
            drop(refusal);
            Ok(None)
        }
    }
}

/// What is claimed of a row and a select, where no check of them fails.
fn claimed(
    alloc: Global,
    tables: &Database,
    row: Row,
    select: Select,
) -> Result<Option<Claim>, NoMemory>
    ensures { IfOk result (λ found. MatchOption found ((query : QueryValue) → CanAsk tables.now select query row → ⊥) (IsClaimOf tables.now row select)) }
{
    match query_for(alloc, tables, &row, &select) {
        Ok(Some(query)) => Ok(Some(Claim { select, query, row })),
        Ok(None) => {
            drop(select);
            drop(row);
            Ok(None)
        }
        Err(fault) => {
            drop(select);
            drop(row);
            Err(fault)
        }
    }
}

/// Does what a statement says: a table is created, or it is the claim.
///
/// # Errors
///
/// The statement's number where it says neither, or a check of it fails.
fn take(
    alloc: Global,
    tables: &mut Database,
    said: Opening,
    number: u32,
) -> Result<Option<Claim>, Fail<u32>>
    ensures leads { IfOk result (λ found. (text : List ℕ) → HasOpening text said → MatchOption found (LeadsOn (Created tables.old) text (Created tables.new)) (λ claim. LeadsOn (Created tables.old) text (asked_stage tables.new claim))) }
    ensures bad { IfErr result (IfRefused (λ n. (n ≡ number) × ((text : List ℕ) → HasOpening text said → (next : Stage) → LeadsOn (Created tables.old) text next → ⊥))) }
{
    match said {
        Opening::Create(raw) => {
            let made = create(alloc, tables, &raw);
            drop(raw);
            if made? {
                return Ok(None);
            }
            Err(Fail::Refused(number))
        }
        Opening::Prove { row, select } => match claimed(alloc, tables, row, select)? {
            Some(claim) => Ok(Some(claim)),
            None => Err(Fail::Refused(number)),
        },
        Opening::Other => Err(Fail::Refused(number)),
    }
}

/// Reads a statement: a table is created, or it is the claim.
fn step(
    alloc: Global,
    script: &mut Script<'_>,
    tables: &mut Database,
) -> Result<Option<Claim>, Fail<u32>>
    ensures leads { IfOk result (λ found. MatchOption found (GoesFrom (Created tables.old) script.old (Created tables.new) script.new) (λ claim. GoesFrom (Created tables.old) script.old (asked_stage tables.new claim) script.new)) }
    ensures shorter { OnOk result (length script.new.bytes < length script.old.bytes) }
    ensures bad { IfErr result (IfRefused (IsBadStatement (Created tables.old) script.old)) }
{
    let text = script.due_text()?;
    let said = opening_of(alloc, text)?;
    take(alloc, tables, said, script.before())
}

/// Reads statements up to the claim, and creates the tables of those before it.
///
/// # Errors
///
/// The number of the first bad statement.
pub fn head(
    alloc: Global,
    script: &mut Script<'_>,
    tables: &mut Database,
) -> Result<Claim, Fail<u32>>
    ensures leads { IfOk result (λ claim. GoesFrom (Created tables.old) script.old (asked_stage tables.new claim) script.new) }
    ensures bad { IfErr result (IfRefused (IsBadStatement (Created tables.old) script.old)) }
{
    loop {
        if let Some(claim) = step(alloc, script, tables)? {
            return Ok(claim);
        }
    }
}
