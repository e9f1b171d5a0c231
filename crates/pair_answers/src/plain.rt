//! Whether the query alone tells that each row of an atom fits by itself, so that no row has to be looked at.

ghost use Rattle.std.specs.Prelude.{◌≢◌, IsTrue, All};
ghost use Rattle.cqa_model.specs.Shape.{IsInRange};
ghost use Rattle.cqa_model.specs.Variables.{AreLinked};
ghost use Rattle.pair_answers.specs.Plain.{AreColumnsApart, IsJoin, IsPlain};

use cqa_model::{ColRef, Cond, Query};
use join_access::are_linked;
use table_blocks::Bound;

/// Whether a condition is a join.
fn is_join(cond: &Cond) -> bool
    ensures { IsTrue result → IsJoin cond.now }
{
    match cond {
        Cond::Join { .. } => true,
        Cond::Test { .. } => false,
    }
}

/// Whether no condition is a test.
fn are_joins(query: &Query) -> bool
    ensures { IsTrue result → All IsJoin query.now.conds }
{
    let conds = query.conds.as_slice();
    conds.iter().all(is_join)
}

/// Whether two columns of an atom are one, or of different variables.
fn is_apart(bound: &Bound<'_>, atom: u32, i: u32, j: u32) -> bool
    requires first { IsInRange bound.now.query.now.atoms (record { atom = atom; col = i }) }
    requires second { IsInRange bound.now.query.now.atoms (record { atom = atom; col = j }) }
    ensures { IsTrue result → i ≢ j → AreLinked bound.now.query.now (record { atom = atom; col = i }) (record { atom = atom; col = j }) → ⊥ }
{
    i == j
        || !are_linked(
            bound.query,
            &bound.variables,
            ColRef { atom, col: i },
            ColRef { atom, col: j },
        )
}

/// Whether different columns of an atom are of different variables.
fn are_apart(bound: &Bound<'_>, atom: u32) -> bool
    ensures { IsTrue result → AreColumnsApart bound.now.query.now atom }
{
    let columns = bound.width_of(atom);
    for i in 0..columns {
        for j in 0..columns {
            if !is_apart(bound, atom, i, j) {
                return false;
            }
        }
    }
    true
}

/// Whether each row of an atom fits by itself, as the query tells: it has no answer columns and no tests, and no two
/// columns of the atom are of one variable.
pub(crate) fn all_fit(bound: &Bound<'_>, atom: u32) -> bool
    ensures { IsTrue result → IsPlain bound.now.query.now atom }
{
    if !bound.query.answer.is_empty() {
        return false;
    }
    if !are_joins(bound.query) {
        return false;
    }
    are_apart(bound, atom)
}
