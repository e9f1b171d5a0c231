//! The rows of both tables of a pair, numbered one after the other: the list of each, and the blocks.

ghost use Rattle.std.specs.Prelude.{◌≡◌, ◌+◌, length};
ghost use Rattle.weak_pairs.specs.Digests.{lists_in};
ghost use Rattle.weak_pairs.specs.Outcomes.{AreSided, AreStarts};

use crate::lists::Lists;

/// Numbered rows with their lists and blocks. Rows of one table with one list are of one block.
#[derive(Clone, Copy)]
pub struct NumberedRows<'a, 'v> {
    /// The list of each row.
    pub lists: &'a Lists<'v>,
    /// Where each block's rows begin, and at last the number of rows.
    pub start: &'a [u32],
    /// How many blocks there are.
    pub blocks: u32,
    /// How many blocks are the first table's.
    pub split: u32,
    pub ghost counted: { blocks + 1 ≡ length start.now },
    pub ghost starts: { AreStarts start.now (length (lists_in lists.now.form)) },
    pub ghost sided: { AreSided (lists_in lists.now.form) start.now split },
}
