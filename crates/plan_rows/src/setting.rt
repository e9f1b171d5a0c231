//! What a plan is evaluated over: a query that fits a database, and what was prepared for the two.

ghost use Rattle.std.specs.Prelude.{◌≡◌, ◌<◌, IfSome, Some, None, length, slice_index_or};
ghost use Rattle.join_access.specs.Spots.{ArePaths};
ghost use Rattle.plan_rows.specs.Joining.{AreJoined, joined_once};

use crate::joined::JoinedColumns;
use join_access::RowIndex;
use std::alloc::Global;
use table_blocks::Bound;

/// A query that fits a database, with indexes of the tables of its atoms, where there are some, and the columns that its joins
/// name.
#[derive(Drop)]
pub struct Setting<'x, 'a> {
    pub alloc: Global,
    pub bound: &'x Bound<'a>,
    pub paths: &'x [Option<RowIndex<'x>>],
    pub joined: JoinedColumns,
    pub ghost indexed: { ArePaths bound.now.query.now bound.now.db.now paths.now },
    pub ghost found: { AreJoined bound.now.query.now bound.now.variables joined } by { joined_once bound.now.query.now bound.now.variables joined },
}

/// The index at a place, if there is one.
fn path_of<'a>(paths: &'a [Option<RowIndex<'a>>], atom: usize) -> Option<&'a RowIndex<'a>>
    ensures { IfSome result (λ x. (atom < length paths.now) × (slice_index_or paths.now atom None ≡ Some x.now)) }
{
    if atom < paths.len()
        && let Some(index) = &paths[atom]
    {
        return Some(index);
    }
    None
}

impl<'x, 'a> Setting<'x, 'a> {
    ghost use Rattle.cqa_model.specs.Database.{stored};
    ghost use Rattle.cqa_model.specs.Query.{rows_of};

    /// The index of an atom's table, if there is one.
    pub fn index_of(&self, atom: u32) -> Option<&'x RowIndex<'x>>
        ensures { IfSome result (λ x. x.now.rows ≡ rows_of self.now.bound.now.query.now (stored self.now.bound.now.db.now) atom) }
    {
        path_of(self.paths, atom as usize)
    }
}
