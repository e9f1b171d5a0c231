//! The tables of a query, in the order of its atoms: the frame in which the rows of its formulas are numbered.

ghost use Rattle.std.specs.Prelude.{◌≡◌, IfOk, length};
ghost use Rattle.row_lists.specs.Formulas.{IsFrame};
ghost use Rattle.repair_clauses.specs.Frames.{tables_of};

use cqa_model::Query;
use cqa_value::NoMemory;
use row_lists::{Frame, frame_of};
use std::alloc::Global;
use table_blocks::Bound;

/// The tables of a query's atoms, in their order.
fn atom_tables(alloc: Global, query: &Query) -> Result<Vec<u32>, NoMemory>
    ensures { IfOk result (λ tables. tables.items ≡ tables_of query.now) }
{
    let mut tables = Vec::with_capacity(alloc, query.atoms.len())?;
    for atom in query.atoms.as_slice() {
        tables.push(atom.table)?;
    }
    Ok(tables)
}

/// The frame of a query's tables, in the order of its atoms.
///
/// # Errors
///
/// `NoMemory` where memory is refused.
pub fn query_frame(alloc: Global, bound: &Bound<'_>) -> Result<Frame, NoMemory>
    ensures frame { IfOk result (λ frame. IsFrame bound.now.db.now frame.tables) }
    ensures wide { IfOk result (λ frame. length frame.slots ≡ length bound.now.db.now) }
    ensures tables { IfOk result (λ frame. frame.tables ≡ tables_of bound.now.query.now) }
{
    let tables = atom_tables(alloc, bound.query)?;
    frame_of(alloc, bound.db, tables)
}
