//! The graph of attacks, a row for each atom: those that it attacks, and those whose key its own key derives.

ghost use Rattle.std.specs.Prelude.{◌≢◌, ℕ, ◌<◌, ◌↔◌, IsTrue, length};
ghost use Rattle.cqa_model.specs.declared.limits.TheConstants.{MOST_ATOMS};
ghost use Rattle.cqa_model.specs.Variables.{IsKeyVar, whole};
ghost use Rattle.cqa_model.specs.Closures.{InClosure};
ghost use Rattle.cqa_model.specs.Graph.{Attacks as IsAttack, IsReached, IsWeak};
ghost use Rattle.key_closure.specs.Sets.{HasAtom};
ghost use Rattle.key_closure.specs.Members.{AreSame, IsLeft, IsSetOf, seen};
ghost use Rattle.attack_graph.specs.Pairs.{HasPair};
ghost use Rattle.attack_graph.specs.Attacking.{AreAttacks};

use crate::Attacks;
use crate::spreading::{is_touched, reached_from};
use cqa_model::{MOST_ATOMS, Query, variables};
use key_closure::{AtomSet, Named, VarSet, View};

/// The attacks between the atoms of a view.
pub fn attacks(query: &Query, view: &View) -> Attacks
    ensures seen { AreAttacks query.now (seen query.now view.now) result }
    ensures whole { AreSame (whole query.now) (seen query.now view.now) → AreAttacks query.now (whole query.now) result }
{
    let variables = variables(query);
    let named = Named {
        query,
        variables: &variables,
        view: *view,
    };
    let by = attack_rows(&named);
    let weak = weak_rows(&named);
    Attacks { by, weak }
}

/// For each atom those that it attacks.
fn attack_rows(named: &Named<'_>) -> [AtomSet; MOST_ATOMS as usize]
    ensures { (F G : ℕ) → HasPair result F G ↔ IsAttack named.now.query.now (seen named.now.query.now named.now.view) F G }
{
    let mut rows = [AtomSet::new(); MOST_ATOMS as usize];
    for atom in 0..named.query.atoms.len() as u32 {
        rows[atom as usize] = attack_row(named, atom);
    }
    rows
}

/// The atoms that an atom of the query attacks in a view: none where it is gone.
pub fn attack_row(named: &Named<'_>, from: u32) -> AtomSet
    requires atom { from < length named.now.query.now.atoms }
    ensures { (G : ℕ) → HasAtom result G ↔ IsAttack named.now.query.now (seen named.now.query.now named.now.view) from G }
{
    if named.view.gone.has(from) {
        return AtomSet::new();
    }
    attacked_by(named, from)
}

/// The atoms that an atom of the view attacks.
fn attacked_by(named: &Named<'_>, from: u32) -> AtomSet
    requires atom { IsLeft named.now.query.now named.now.view from }
    ensures { (G : ℕ) → HasAtom result G ↔ IsAttack named.now.query.now (seen named.now.query.now named.now.view) from G }
{
    let reached = reached_from(named, from);
    let mut atoms = AtomSet::new();
    for atom in 0..named.query.atoms.len() as u32 {
        let wanted = is_attacked(named, from, &reached, atom);
        atoms.insert_if(atom, wanted);
    }
    atoms
}

/// Is the atom another one of the view, with a variable that is reached?
fn is_attacked(named: &Named<'_>, from: u32, reached: &VarSet, atom: u32) -> bool
    requires from { IsLeft named.now.query.now named.now.view from }
    requires reached { IsSetOf named.now.query.now reached.now (IsReached named.now.query.now (seen named.now.query.now named.now.view) from) }
    requires atom { atom < length named.now.query.now.atoms }
    ensures { IsTrue result ↔ IsAttack named.now.query.now (seen named.now.query.now named.now.view) from atom }
{
    is_another(&named.view, from, atom) && is_touched(named, reached, atom)
}

/// Is the atom another one, and not gone?
fn is_another(view: &View, from: u32, atom: u32) -> bool
    requires { atom < MOST_ATOMS }
    ensures { IsTrue result ↔ ((from ≢ atom) × (HasAtom view.now.gone atom → ⊥)) }
{
    from != atom && !view.gone.has(atom)
}

/// For each atom those whose key its own key derives.
fn weak_rows(named: &Named<'_>) -> [AtomSet; MOST_ATOMS as usize]
    ensures { (F G : ℕ) → HasPair result F G ↔ ((F < length named.now.query.now.atoms) × (G < length named.now.query.now.atoms) × IsWeak named.now.query.now (seen named.now.query.now named.now.view) F G) }
{
    let mut rows = [AtomSet::new(); MOST_ATOMS as usize];
    for atom in 0..named.query.atoms.len() as u32 {
        rows[atom as usize] = weak_row(named, atom);
    }
    rows
}

/// The atoms whose key an atom's key derives: of those that it attacks, the ones that it attacks weakly.
pub fn weak_row(named: &Named<'_>, from: u32) -> AtomSet
    requires atom { from < length named.now.query.now.atoms }
    ensures { (G : ℕ) → HasAtom result G ↔ ((G < length named.now.query.now.atoms) × IsWeak named.now.query.now (seen named.now.query.now named.now.view) from G) }
{
    let derived = derived_from(named, from);
    let mut atoms = AtomSet::new();
    for atom in 0..named.query.atoms.len() as u32 {
        let wanted = is_weak(named, from, &derived, atom);
        atoms.insert_if(atom, wanted);
    }
    atoms
}

/// Is all of the atom's key in the closure of another's?
fn is_weak(named: &Named<'_>, from: u32, derived: &VarSet, atom: u32) -> bool
    requires derived { IsSetOf named.now.query.now derived.now (InClosure named.now.query.now (seen named.now.query.now named.now.view) (IsLeft named.now.query.now named.now.view) (IsKeyVar named.now.query.now (seen named.now.query.now named.now.view) from)) }
    requires atom { atom < length named.now.query.now.atoms }
    ensures { IsTrue result ↔ IsWeak named.now.query.now (seen named.now.query.now named.now.view) from atom }
{
    named.is_ready(derived, atom)
}

/// The closure of an atom's key under the dependencies of all atoms.
fn derived_from(named: &Named<'_>, from: u32) -> VarSet
    requires atom { from < length named.now.query.now.atoms }
    ensures { IsSetOf named.now.query.now result (InClosure named.now.query.now (seen named.now.query.now named.now.view) (IsLeft named.now.query.now named.now.view) (IsKeyVar named.now.query.now (seen named.now.query.now named.now.view) from)) }
{
    let start = named.key_set(from);
    let atoms = named.left();
    named.closure(&start, &atoms)
}
