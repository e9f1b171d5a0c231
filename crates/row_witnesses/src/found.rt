//! All witnesses of a row, as one value: what is told of the row by them.

ghost use Rattle.std.specs.Prelude.{◌≡◌, ◌≤◌, length};
ghost use Rattle.join_access.specs.Listing.{AreAllNames, HasTooMany, names_of};
ghost use Rattle.join_access.specs.declared.witness.TheConstants.{MOST_WITNESSES};
ghost use Rattle.row_witnesses.specs.Columns.{AreColumnsOfAtoms};

use crate::column::columns_of;
use cqa_value::{Items, NoMemory, Row};
use join_access::Witness;
use std::alloc::Global;
use table_blocks::Bound;

/// All witnesses of a row of a query, each once, in the lexicographic order of their rows' places. There are at most
/// `MOST_WITNESSES`.
#[derive(Drop)]
pub struct RowWitnesses<'a> {
    pub bound: &'a Bound<'a>,
    pub row: &'a Row,
    pub list: Items<Witness>,
    /// For each atom the places that its rows have in the witnesses, in order, each once.
    pub columns: Items<Items<u32>>,
    pub ghost all: { ∥ AreAllNames bound.now.query.now bound.now.db.now row.now (names_of list) ∥₁ },
    pub ghost few: { length list ≤ MOST_WITNESSES },
    pub ghost within: { HasTooMany bound.now.query.now bound.now.db.now row.now → ⊥ },
    pub ghost wide: { length columns ≡ length bound.now.query.now.atoms },
    pub ghost sorted: { ∥ AreColumnsOfAtoms (names_of list) columns ∥₁ },
}

impl<'a> RowWitnesses<'a> {
    ghost use Rattle.std.specs.Prelude.{◌<◌, [], IfOk, slice_index_or};
    ghost use Rattle.row_witnesses.specs.Columns.{AreColumn};

    /// The witnesses of a row, where these are all of them.
    ///
    /// # Errors
    ///
    /// `NoMemory` where memory is refused.
    pub fn new(
        alloc: Global,
        bound: &'a Bound<'a>,
        row: &'a Row,
        list: Items<Witness>,
    ) -> Result<RowWitnesses<'a>, NoMemory>
        requires all { AreAllNames bound.now.query.now bound.now.db.now row.now (names_of list) }
        requires few { length list ≤ MOST_WITNESSES }
        ensures { IfOk result (λ found. (found.bound.now ≡ bound.now) × (found.row.now ≡ row.now)) }
    {
        match columns_of(alloc, list.as_slice(), bound.query.atoms.len()) {
            Ok(columns) => Ok(RowWitnesses {
                bound,
                row,
                list,
                columns,
            }),
            Err(fault) => {
                drop(list);
                Err(fault)
            }
        }
    }

    /// The places that the rows of an atom have in the witnesses, in order, each once.
    pub fn column(&self, atom: usize) -> &[u32]
        requires { atom < length self.now.bound.now.query.now.atoms }
        ensures is { result.now ≡ slice_index_or self.now.columns atom [] }
        ensures column { AreColumn (names_of self.now.list) atom result.now }
    {
        self.columns.as_slice()[atom].as_slice()
    }
}
