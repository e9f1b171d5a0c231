//! Which atoms of a view are attacked, and which one that none attacks is taken next.

ghost use Rattle.std.specs.Prelude.{◌≡◌, ℕ, ◌<◌, ◌↔◌, IfSome, MatchOption};
ghost use Rattle.cqa_model.specs.declared.limits.TheConstants.{MOST_ATOMS};
ghost use Rattle.key_closure.specs.Sets.{HasAtom};
ghost use Rattle.key_closure.specs.Members.{IsLeft, seen};
ghost use Rattle.fo_rewrite.specs.Planning.{IsAttacked, IsNext, IsFirstUnattacked, IsStuck};
ghost use Rattle.fo_rewrite.specs.declared.preference.Choice.TheVariants.{First};

use crate::known::Facts;
use crate::preference::{Choice, preferred};
use attack_graph::attack_row;
use cqa_model::MOST_ATOMS;
use key_closure::{AtomSet, Named};

/// An atom of the view that none attacks: the first, or the one that is preferred.
pub(crate) fn next_atom<'x>(
    named: &'x Named<'x>,
    facts: &'x Facts<'x>,
    left: &AtomSet,
    attacked: &AtomSet,
    choice: Choice,
) -> Option<u32>
    requires left { (K : ℕ) → HasAtom left.now K ↔ IsLeft named.now.query.now named.now.view K }
    requires attacked { (G : ℕ) → HasAtom attacked.now G ↔ IsAttacked named.now.query.now (seen named.now.query.now named.now.view) G }
    ensures first { choice ≡ First → IfSome result (IsFirstUnattacked named.now.query.now (seen named.now.query.now named.now.view)) }
    ensures next { MatchOption result (IsStuck named.now.query.now (seen named.now.query.now named.now.view)) (IsNext named.now.query.now (seen named.now.query.now named.now.view)) }
{
    let Some(first) = first_outside(left, attacked) else {
        return None;
    };
    match choice {
        Choice::First => Some(first),
        Choice::Preferred { first: wanted } => {
            Some(preferred(named, facts, left, attacked, wanted, first))
        }
    }
}

/// The atoms that an atom of the view attacks.
pub(crate) fn attacked_atoms(named: &Named<'_>) -> AtomSet
    ensures { (G : ℕ) → HasAtom result G ↔ IsAttacked named.now.query.now (seen named.now.query.now named.now.view) G }
{
    let mut attacked = AtomSet::new();
    for atom in 0..named.query.atoms.len() as u32 {
        let row = attack_row(named, atom);
        attacked = attacked.union(&row);
    }
    attacked
}

/// The same, where no atom is attacked but these: where there are none, nothing is computed.
pub(crate) fn attacked_after(named: &Named<'_>, before: &AtomSet) -> AtomSet
    requires { (G : ℕ) → IsAttacked named.now.query.now (seen named.now.query.now named.now.view) G → HasAtom before.now G }
    ensures { (G : ℕ) → HasAtom result G ↔ IsAttacked named.now.query.now (seen named.now.query.now named.now.view) G }
{
    if before.is_empty() {
        return *before;
    }
    attacked_atoms(named)
}

/// The first atom of a set that is outside another.
pub(crate) fn first_outside(set: &AtomSet, other: &AtomSet) -> Option<u32>
    ensures { MatchOption result ((G : ℕ) → G < MOST_ATOMS → HasAtom set.now G → HasAtom other.now G)
        (λ G. (G < MOST_ATOMS) × HasAtom set.now G × (HasAtom other.now G → ⊥) × ((H : ℕ) → H < G → HasAtom set.now H → HasAtom other.now H)) }
{
    for atom in 0..MOST_ATOMS {
        if set.has(atom) && !other.has(atom) {
            return Some(atom);
        }
    }
    None
}
