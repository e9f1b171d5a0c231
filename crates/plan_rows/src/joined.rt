//! The columns of a query's atoms that joins name, found once. Rows of different atoms have to agree in these alone.

ghost use Rattle.std.specs.Prelude.{◌≡◌, ◌↔◌, IsTrue, All};
ghost use Rattle.plan_rows.specs.Joining.{LeavesOut, AreJoinedIn, AreJoined, joined_in};

use cqa_model::{ColRef, Cond, MOST_ATOMS, MOST_COLUMNS};
use row_order::InlineVec;
use table_blocks::Bound;

const ATOMS: usize = MOST_ATOMS as usize;

/// The place of a column of an atom, and the class of its variable.
#[derive(Clone, Copy, Default, Drop)]
pub(crate) struct JoinedColumn {
    pub col: u8,
    pub class: u8,
}

/// For each atom of a query those of its columns that a join names. They take no memory.
#[derive(Drop)]
pub struct JoinedColumns {
    atoms: InlineVec<InlineVec<JoinedColumn, MOST_COLUMNS>, ATOMS>,
}

/// Whether a condition doesn't join a column.
fn leaves_out(cond: &Cond, column: ColRef) -> bool
    ensures { IsTrue result ↔ LeavesOut column cond.now }
{
    match cond {
        Cond::Join { left, right } => *left != column && *right != column,
        Cond::Test { .. } => true,
    }
}

/// Whether no condition joins a column.
fn is_alone(conds: &[Cond], column: ColRef) -> bool
    ensures { IsTrue result ↔ All (LeavesOut column) conds.now }
{
    conds.iter().all(|cond| leaves_out(cond, column))
}

/// Those columns of an atom that a join names.
fn joined_columns(bound: &Bound<'_>, atom: u32) -> InlineVec<JoinedColumn, MOST_COLUMNS>
    ensures { AreJoinedIn bound.now.query.now bound.now.variables atom result }
{
    let conds = bound.query.conds.as_slice();
    let mut joined = InlineVec::new();
    for col in 0..bound.width_of(atom) {
        let column = ColRef { atom, col };
        if is_alone(conds, column) {
            continue;
        }
        joined.push(JoinedColumn {
            col: col as u8,
            class: bound.variables.class_of(column),
        });
    }
    joined
}

impl JoinedColumns {
    /// Those of a query's columns that a join names.
    pub fn new(bound: &Bound<'_>) -> JoinedColumns
        ensures { AreJoined bound.now.query.now bound.now.variables result }
    {
        let mut atoms = InlineVec::new();
        for atom in 0..bound.query.atoms.len() as u32 {
            atoms.push(joined_columns(bound, atom));
        }
        JoinedColumns { atoms }
    }

    /// Those of an atom's columns that a join names; none of an atom that isn't there.
    pub(crate) fn of_atom(&self, atom: u32) -> &[JoinedColumn]
        ensures { result.now ≡ joined_in self.now atom }
    {
        match self.atoms.as_slice().get(atom as usize) {
            Some(joined) => joined.as_slice(),
            None => &[],
        }
    }
}
