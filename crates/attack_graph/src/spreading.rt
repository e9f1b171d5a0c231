//! What an atom reaches: its variables outside F+, and from each variable reached those that share an atom with it.

ghost use Rattle.std.specs.Prelude.{ℕ, ◌<◌, ◌↔◌, IsTrue, MatchOption, length};
ghost use Rattle.cqa_model.specs.Variables.{IsVar};
ghost use Rattle.cqa_model.specs.Query.{IsStrict};
ghost use Rattle.cqa_model.specs.Closures.{CountsFor, InPlus};
ghost use Rattle.cqa_model.specs.Graph.{IsReached};
ghost use Rattle.key_closure.specs.Sets.{HasAtom};
ghost use Rattle.key_closure.specs.Members.{IsAmong, IsLeft, IsSetOf, seen};
ghost use Rattle.attack_graph.specs.Attacking.{IsTouched};

use cqa_model::Query;
use key_closure::{AtomSet, Named, VarSet};

/// The variables that a sequence from vars(F) outside F+ leads to.
pub(crate) fn reached_from(named: &Named<'_>, from: u32) -> VarSet
    requires atom { IsLeft named.now.query.now named.now.view from }
    ensures { IsSetOf named.now.query.now result (IsReached named.now.query.now (seen named.now.query.now named.now.view) from) }
{
    let plus = plus_of(named, from);
    let mut set = outside(named, from, &plus, from);
    let mut waiting = named.left();
    'spread: while let Some(atom) = first_touched(named, &set, &waiting) {
        waiting.remove(atom);
        let more = outside(named, from, &plus, atom);
        set = set.union(&more);
    }
    set
}

/// Is a variable of the atom in the set?
pub(crate) fn is_touched(named: &Named<'_>, set: &VarSet, atom: u32) -> bool
    requires atom { atom < length named.now.query.now.atoms }
    ensures { IsTrue result ↔ IsTouched named.now.query.now named.now.view set.now atom }
{
    let vars = named.var_set(atom);
    set.meets(&vars)
}

/// F+: the closure of key(F) under the dependencies that count for it.
fn plus_of(named: &Named<'_>, from: u32) -> VarSet
    requires atom { IsLeft named.now.query.now named.now.view from }
    ensures { IsSetOf named.now.query.now result (InPlus named.now.query.now (seen named.now.query.now named.now.view) from) }
{
    let start = named.key_set(from);
    let atoms = counted(named, from);
    named.closure(&start, &atoms)
}

/// The atoms whose dependencies count for F+: those of the view, without F unless its table is strict.
fn counted(named: &Named<'_>, from: u32) -> AtomSet
    requires atom { IsLeft named.now.query.now named.now.view from }
    ensures { (K : ℕ) → HasAtom result K ↔ CountsFor named.now.query.now (seen named.now.query.now named.now.view) from K }
{
    let mut atoms = named.left();
    if !is_strict(named.query, from) {
        atoms.remove(from);
    }
    atoms
}

/// Is the atom's table strict?
fn is_strict(query: &Query, atom: u32) -> bool
    requires { atom < length query.now.atoms }
    ensures { IsTrue result ↔ IsStrict query.now atom }
{
    query.atoms.as_slice()[atom as usize].strict
}

/// The variables of an atom that are outside F+.
fn outside(named: &Named<'_>, from: u32, plus: &VarSet, atom: u32) -> VarSet
    requires plus { IsSetOf named.now.query.now plus.now (InPlus named.now.query.now (seen named.now.query.now named.now.view) from) }
    requires atom { atom < length named.now.query.now.atoms }
    ensures { IsSetOf named.now.query.now result (λ c. IsVar named.now.query.now (seen named.now.query.now named.now.view) atom c × (InPlus named.now.query.now (seen named.now.query.now named.now.view) from c → ⊥)) }
{
    let vars = named.var_set(atom);
    vars.without(plus)
}

/// The first of the atoms with a variable in the set.
fn first_touched(named: &Named<'_>, set: &VarSet, waiting: &AtomSet) -> Option<u32>
    ensures { MatchOption result ((K : ℕ) → IsAmong named.now.query.now waiting.now K → IsTouched named.now.query.now named.now.view set.now K → ⊥)
        (λ K. IsAmong named.now.query.now waiting.now K × IsTouched named.now.query.now named.now.view set.now K) }
{
    for atom in 0..named.query.atoms.len() as u32 {
        if waiting.has(atom) && is_touched(named, set, atom) {
            return Some(atom);
        }
    }
    None
}
