//! The formula of a row, with its variables numbered from 1: one clause for each relevant block, and one for each witness.
//! Beside it stand the names of the rows that are the variables.

ghost use Rattle.std.specs.Prelude.{◌≡◌, IfOk, length};
ghost use Rattle.repair_clauses.specs.Encodings.{IsEncoded};
ghost use Rattle.repair_clauses.specs.Frames.{tables_of};

use crate::frame::query_frame;
use cqa_value::NoMemory;
use row_lists::{Encoded, Frame, RowLists};
use row_witnesses::RowWitnesses;
use std::alloc::Global;
use table_blocks::Database;

/// The formula of the row whose witnesses these are, over the query's tables.
fn encode_over<'c, 'w: 'c>(
    alloc: Global,
    witnesses: &'c RowWitnesses<'w>,
    frame: &'c Frame,
) -> Result<Encoded, NoMemory>
    requires wide { length frame.now.slots ≡ length witnesses.now.bound.now.db.now }
    requires tables { frame.now.tables ≡ tables_of witnesses.now.bound.now.query.now }
    ensures { IfOk result (IsEncoded witnesses.now.bound.now.query.now witnesses.now.bound.now.db.now witnesses.now.row.now) }
{
    let db: &'c Database = witnesses.bound.db;
    let lists = RowLists::new(alloc, db, frame, witnesses.list.as_slice())?;
    let encoded = row_lists::encode(alloc, &lists);
    drop(lists);
    encoded
}

/// The formula of the row whose witnesses these are.
///
/// # Errors
///
/// `NoMemory` where memory is refused.
pub fn encode(alloc: Global, witnesses: &RowWitnesses<'_>) -> Result<Encoded, NoMemory>
    ensures { IfOk result (IsEncoded witnesses.now.bound.now.query.now witnesses.now.bound.now.db.now witnesses.now.row.now) }
{
    let frame = query_frame(alloc, witnesses.bound)?;
    let encoded = encode_over(alloc, witnesses, &frame);
    drop(frame);
    encoded
}
