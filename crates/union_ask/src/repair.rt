//! The repair of a union's tables that a model gives.

ghost use Rattle.std.specs.Prelude.{◌≡◌, IfOk, length};
ghost use Rattle.table_blocks.specs.Tables.{AreStored};
ghost use Rattle.union_ask.specs.Repairs.{AreUnionPicks, IsUnionRepair};

use crate::frame::union_frame;
use cqa_model::RowId;
use cqa_value::{Items, NoMemory};
use part_search::BoundParts;
use repair_back::tables_from_model;
use std::alloc::Global;

/// One row of each block of each of a union's tables, by tables in the order of their creation and then in block order.
#[derive(Debug, Drop)]
pub struct UnionKept {
    pub rows: Items<RowId>,
}

/// The repair that a model gives: of each block of the union's tables the first row that is listed with `true`, or else the first
/// row. Where the list is that of the variables of a row's formula and the model satisfies it, the repair holds no witness of the
/// row for any part: a law, `union_model_rejects`.
///
/// # Errors
///
/// `NoMemory` where memory is refused.
pub fn union_repair(
    alloc: Global,
    parts: &BoundParts<'_>,
    rows: &[RowId],
    model: &[bool],
) -> Result<UnionKept, NoMemory>
    requires long { length rows.now ≡ length model.now }
    requires there { AreStored parts.now.db.now rows.now }
    ensures repair { IfOk result (λ kept. IsUnionRepair parts.now.db.now parts.now.queries.now kept.rows) }
    ensures picks { IfOk result (λ kept. AreUnionPicks parts.now.db.now parts.now.queries.now rows.now model.now kept.rows) }
    ensures stored { IfOk result (λ kept. AreStored parts.now.db.now kept.rows) }
{
    let frame = union_frame(alloc, parts)?;
    let repair = tables_from_model(alloc, parts.db, frame.tables.as_slice(), rows, model)?;
    Ok(UnionKept { rows: repair.kept })
}
