//! The tables of a union, in the order of their creation: the frame in which its rows are numbered.

ghost use Rattle.std.specs.Prelude.{◌≡◌, ◌⊎◌, ◌↔◌, ℕ, IfOk, Contains, length};
ghost use Rattle.part_search.specs.Parts.{IsFrameFor, IsTableOf, IsTableIn};
ghost use Rattle.union_ask.specs.Candidates.{AreTablesIn};

use cqa_model::Query;
use cqa_value::NoMemory;
use part_search::BoundParts;
use row_lists::{Frame, rising_frame};
use std::alloc::Global;

/// Adds the tables of a query.
fn add_tables(query: &Query, tables: &mut Vec<u32>) -> Result<(), NoMemory>
    ensures { IfOk result (λ done. (t : ℕ) → Contains tables.new.items t ↔ (Contains tables.old.items t ⊎ IsTableOf query.now t)) }
{
    for atom in query.atoms.as_slice() {
        tables.push(atom.table)?;
    }
    Ok(())
}

/// The tables of all parts, in any order.
fn all_tables(alloc: Global, parts: &[Query]) -> Result<Vec<u32>, NoMemory>
    ensures { IfOk result (λ tables. (t : ℕ) → Contains tables.items t ↔ IsTableIn parts.now t) }
{
    let mut tables = Vec::new(alloc);
    for query in parts {
        add_tables(query, &mut tables)?;
    }
    Ok(tables)
}

/// The frame of the parts' tables, each once, in the order of their creation.
///
/// # Errors
///
/// `NoMemory` where memory is refused.
pub(crate) fn union_frame(alloc: Global, parts: &BoundParts<'_>) -> Result<Frame, NoMemory>
    ensures frame { IfOk result (λ frame. IsFrameFor parts.now.db.now parts.now.queries.now frame.tables) }
    ensures wide { IfOk result (λ frame. length frame.slots ≡ length parts.now.db.now) }
    ensures tables { IfOk result (λ frame. AreTablesIn parts.now.queries.now frame.tables) }
{
    let tables = all_tables(alloc, parts.queries)?;
    let frame = rising_frame(alloc, parts.db, tables)?;
    Ok(frame)
}
