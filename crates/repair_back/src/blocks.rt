//! The starts and ends of blocks in rows that are in block order.

ghost use Rattle.std.specs.Prelude.{◌<◌, ◌≤◌, [], length, slice_index_or};
ghost use Rattle.std.specs.List.Sorted.{IsStrictlySortedBy};
ghost use Rattle.cqa_model.specs.Database.{block_cmp};
ghost use Rattle.cqa_model.specs.Repairs.{SharesKey};
ghost use Rattle.repair_back.specs.Walking.{BeginsBlock, IsBlockBetween};

use row_pieces::Rows;

/// The place behind the block that begins at a place.
pub fn block_end(rows: &Rows<'_>, key: &[u32], at: usize) -> usize
    requires order { IsStrictlySortedBy (block_cmp key.now) rows.now }
    requires there { at < length rows.now }
    requires begins { BeginsBlock key.now rows.now at }
    ensures block { IsBlockBetween key.now rows.now at result }
    ensures begins { BeginsBlock key.now rows.now result }
{
    row_blocks::block_end(rows, key, at)
}

/// The place of the first row of the block of the row at a place.
pub fn block_start(rows: &Rows<'_>, key: &[u32], at: usize) -> usize
    requires order { IsStrictlySortedBy (block_cmp key.now) rows.now }
    requires there { at < length rows.now }
    ensures before { result ≤ at }
    ensures begins { BeginsBlock key.now rows.now result }
    ensures same { SharesKey key.now (slice_index_or rows.now result []) (slice_index_or rows.now at []) }
{
    row_blocks::block_start(rows, key, at)
}
