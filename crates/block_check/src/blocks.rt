//! Whether rows are a block.

ghost use Rattle.std.specs.Prelude.{◌↔◌, IsTrue, IfOk, List, Contains};
ghost use Rattle.cqa_value.specs.declared.value.Value.{Value};
ghost use Rattle.cqa_model.specs.Repairs.{SharesKey};
ghost use Rattle.block_tree.specs.Trees.{IsBlockOf};
ghost use Rattle.block_check.specs.Blocks.{AllDiffer};

use cqa_value::{NoMemory, Row};
use row_blocks::same_key;
use std::alloc::Global;
use std::collections::BTreeSet;

/// Whether rows are all different.
fn are_different(alloc: Global, rows: &[Row]) -> Result<bool, NoMemory>
    ensures { IfOk result (λ b. IsTrue b ↔ AllDiffer rows.now) }
{
    let mut seen = BTreeSet::new(alloc);
    for row in rows {
        if !seen.insert(row)? {
            return Ok(false);
        }
    }
    Ok(true)
}

/// Whether rows share a key with a row.
fn all_share(key: &[u32], first: &Row, rows: &[Row]) -> bool
    ensures { IsTrue result ↔ ((x : List Value) → Contains rows.now x → SharesKey key.now first.now x) }
{
    rows.iter().all(|row| same_key(key, first, row))
}

/// Whether rows are a block of a key: one or more, all different, that agree in the key's columns.
pub fn is_block(alloc: Global, key: &[u32], rows: &[Row]) -> Result<bool, NoMemory>
    ensures { IfOk result (λ b. IsTrue b ↔ IsBlockOf key.now rows.now) }
{
    let Some(first) = rows.first() else {
        return Ok(false);
    };
    if !all_share(key, first, rows) {
        return Ok(false);
    }
    are_different(alloc, rows)
}
