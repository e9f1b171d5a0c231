//! Whether lists may be asked about: blocks have rows, and rows are there.

ghost use Rattle.std.specs.Prelude.{◌↔◌, ◌<◌, ℕ, Contains, IsTrue};
ghost use Rattle.block_choices.specs.Choices.{IsThere};
ghost use Rattle.block_choices.specs.declared.row.BlockRow.{BlockRow};
ghost use Rattle.choice_values.specs.Values.{AreLists};

use crate::lists::WeightedLists;
use block_choices::BlockRow;

/// Whether each block has a row.
fn have_rows(sizes: &[u32]) -> bool
    ensures { IsTrue result ↔ ((s : ℕ) → Contains sizes.now s → 0 < s) }
{
    for size in sizes {
        if *size == 0 {
            return false;
        }
    }
    true
}

/// Whether a row is there.
fn is_there(sizes: &[u32], row: BlockRow) -> bool
    ensures { IsTrue result ↔ IsThere sizes.now row }
{
    let at = row.block as usize;
    at < sizes.len() && row.row < sizes[at]
}

/// Whether all rows of a list are.
fn all_there(sizes: &[u32], names: &[BlockRow]) -> bool
    ensures { IsTrue result ↔ ((x : BlockRow) → Contains names.now x → IsThere sizes.now x) }
{
    for name in names {
        if !is_there(sizes, *name) {
            return false;
        }
    }
    true
}

/// Whether each block has a row and all rows of the lists are there, so that there is a least value.
pub fn are_lists(sizes: &[u32], lists: &WeightedLists) -> bool
    ensures { IsTrue result ↔ AreLists sizes.now lists.now }
{
    for at in 0..lists.len() {
        if !all_there(sizes, lists.names(at)) {
            return false;
        }
    }
    have_rows(sizes)
}
