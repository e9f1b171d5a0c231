//! Sets of a view's variables, for a caller who hasn't named them.

ghost use Rattle.std.specs.Prelude.{ℕ, ◌<◌, ◌↔◌, length};
ghost use Rattle.cqa_model.specs.Variables.{IsKeyVar, IsVar};
ghost use Rattle.cqa_model.specs.Closures.{InClosure};
ghost use Rattle.key_closure.specs.Members.{IsAmong, IsIn, IsProper, IsSetOf, IsUsed, seen};

use crate::{AtomSet, Named, VarSet, View};
use cqa_model::{MOST_ATOMS, Query, variables};

/// key(F): the variables of an atom's key columns that are neither constants nor fixed.
pub fn key_set(query: &Query, view: &View, atom: u32) -> VarSet
    requires { atom < length query.now.atoms }
    ensures is { IsSetOf query.now result (IsKeyVar query.now (seen query.now view.now) atom) }
    ensures proper { IsProper query.now result }
{
    let variables = variables(query);
    let named = Named {
        query,
        variables: &variables,
        view: *view,
    };
    named.key_set(atom)
}

/// vars(F): the variables of an atom's columns that are neither constants nor fixed.
pub fn var_set(query: &Query, view: &View, atom: u32) -> VarSet
    requires { atom < length query.now.atoms }
    ensures is { IsSetOf query.now result (IsVar query.now (seen query.now view.now) atom) }
    ensures proper { IsProper query.now result }
{
    let variables = variables(query);
    let named = Named {
        query,
        variables: &variables,
        view: *view,
    };
    named.var_set(atom)
}

/// The closure of a set under the dependencies key(K) → vars(K) of the view's atoms K, but for one where it is given.
pub fn closure(query: &Query, view: &View, start: &VarSet, without: Option<u32>) -> VarSet
    ensures is { IsSetOf query.now result (InClosure query.now (seen query.now view.now) (IsUsed query.now view.now without) (IsIn query.now start.now)) }
    ensures proper { IsProper query.now start.now → IsProper query.now result }
{
    let variables = variables(query);
    let named = Named {
        query,
        variables: &variables,
        view: *view,
    };
    let atoms = used(&named, without);
    named.closure(start, &atoms)
}

/// The atoms that are left, but one.
fn used(named: &Named<'_>, without: Option<u32>) -> AtomSet
    ensures { (K : ℕ) → IsAmong named.now.query.now result K ↔ IsUsed named.now.query.now named.now.view without K }
{
    let mut atoms = named.left();
    if let Some(atom) = without {
        if atom < MOST_ATOMS && atoms.has(atom) {
            atoms.remove(atom);
        }
    }
    atoms
}
