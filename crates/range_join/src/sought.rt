//! What is asked of the witnesses of a query.

use aggregate_range::Goal;

/// An aggregate over the witnesses of a query: how many there are, or the sum, the least or the greatest value of a
/// column of the table of one of its atoms.
#[derive(Clone, Copy, Debug, PartialEq, Eq)]
pub struct Sought {
    /// The aggregate; its column is one of the atom's table.
    pub goal: Goal,

    /// The place of the atom in the query. A count is the same for each.
    pub atom: u32,
}
