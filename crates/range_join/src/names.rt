//! The names of rows of a table.

ghost use Rattle.std.specs.Prelude.{◌≡◌, IfOk};
ghost use Rattle.table_blocks.specs.Tables.{names_in};

use cqa_model::RowId;
use cqa_value::{Items, NoMemory};
use range_ask::named;
use std::alloc::Global;

/// The names of the rows at the places of both ends.
///
/// # Errors
///
/// `NoMemory` where memory is refused.
pub(crate) fn both_named(
    alloc: Global,
    table: u32,
    low: &[u32],
    high: &[u32],
) -> Result<(Items<RowId>, Items<RowId>), NoMemory>
    ensures low { IfOk result (λ names. names.0 ≡ names_in table low.now) }
    ensures high { IfOk result (λ names. names.1 ≡ names_in table high.now) }
{
    let low_names = named(alloc, table, low)?;
    match named(alloc, table, high) {
        Ok(high_names) => Ok((low_names, high_names)),
        Err(fault) => {
            drop(low_names);
            Err(fault)
        }
    }
}
