//! The columns of each table of a union that some part speaks of: rows of the table that agree in them are alike.

ghost use Rattle.std.specs.Prelude.{◌≡◌, ◌<◌, IfOk, Contains, length};
ghost use Rattle.std.specs.List.{AllZip};
ghost use Rattle.cqa_model.specs.declared.query.ColRef.{ColRef as Column};
ghost use Rattle.cqa_model.specs.Query.{atom_at};
ghost use Rattle.part_search.specs.Spoken.{IsSpokenOf};
ghost use Rattle.part_search.specs.Judging.{IsScopeOf};
ghost use Rattle.part_search.specs.Parts.{IsFrameFor};
ghost use Rattle.part_search.specs.Spoken.{AreSpokenIn, LosesNone};

use crate::bound_parts::BoundParts;
use crate::spoken::spoken_columns;
use cqa_model::Query;
use cqa_value::{Items, NoMemory};
use join_access::put_in_order;
use list_search::Scope;
use row_lists::Frame;
use std::alloc::Global;

/// Adds the columns of an atom that a query speaks of.
fn add_atom(
    alloc: Global,
    query: &Query,
    atom: usize,
    columns: &mut Vec<u32>,
) -> Result<(), NoMemory>
    ensures kept { IfOk result (λ done. LosesNone columns.old.items columns.new.items) }
    ensures added { IfOk result (λ done. (c : Column) → IsSpokenOf query.now c → c.atom ≡ atom → Contains columns.new.items c.col) }
{
    let mut spoken = spoken_columns(alloc, query, atom)?;
    columns.append(&mut spoken)?;
    Ok(())
}

/// Adds the columns of a table that a query speaks of.
fn add_spoken(
    alloc: Global,
    query: &Query,
    table: u32,
    columns: &mut Vec<u32>,
) -> Result<(), NoMemory>
    ensures kept { IfOk result (λ done. LosesNone columns.old.items columns.new.items) }
    ensures added { IfOk result (λ done. (c : Column) → IsSpokenOf query.now c → c.atom < length query.now.atoms → (atom_at query.now c.atom).table ≡ table → Contains columns.new.items c.col) }
{
    for atom in 0..query.atoms.len() {
        if query.atoms.as_slice()[atom].table != table {
            continue;
        }
        add_atom(alloc, query, atom, columns)?;
    }
    Ok(())
}

/// The columns of a table that some part speaks of, each once.
fn columns_of_table(alloc: Global, parts: &[Query], table: u32) -> Result<Items<u32>, NoMemory>
    ensures { IfOk result (AreSpokenIn parts.now table) }
{
    let mut columns = Vec::new(alloc);
    for query in parts {
        add_spoken(alloc, query, table, &mut columns)?;
    }
    put_in_order(&mut columns);
    Ok(Items::from_vec(columns))
}

/// The same for each of some tables.
fn columns_of_tables(
    alloc: Global,
    parts: &[Query],
    tables: &[u32],
) -> Result<Items<Items<u32>>, NoMemory>
    ensures { IfOk result (AllZip (AreSpokenIn parts.now) tables.now) }
{
    let mut columns = Vec::with_capacity(alloc, tables.len())?;
    for table in tables {
        columns.push(columns_of_table(alloc, parts, *table)?)?;
    }
    Ok(Items::from_vec(columns))
}

/// A frame for the parts, and of each of its tables the columns that some part speaks of.
///
/// # Errors
///
/// `NoMemory` where memory is refused.
pub fn scope_over(alloc: Global, parts: &BoundParts<'_>, frame: Frame) -> Result<Scope, NoMemory>
    requires wide { length frame.slots ≡ length parts.now.db.now }
    requires frame { IsFrameFor parts.now.db.now parts.now.queries.now frame.tables }
    ensures frame { IfOk result (λ scope. scope.frame ≡ frame) }
    ensures scope { IfOk result (IsScopeOf parts.now.db.now parts.now.queries.now) }
{
    let columns = columns_of_tables(alloc, parts.queries, frame.tables.as_slice())?;
    Ok(Scope { frame, columns })
}
