//! The attacks of a query, once they are found.

ghost use Rattle.std.specs.Prelude.{ℕ, ◌<◌};
ghost use Rattle.cqa_model.specs.declared.limits.TheConstants.{MOST_ATOMS};
ghost use Rattle.attack_graph.specs.Pairs.{HasPair};

use cqa_model::MOST_ATOMS;
use key_closure::AtomSet;

/// The attacks between atoms, for each atom those that it attacks, and those of them that it attacks weakly.
#[derive(Clone, Copy)]
pub struct Attacks {
    pub(crate) by: [AtomSet; MOST_ATOMS as usize],
    pub(crate) weak: [AtomSet; MOST_ATOMS as usize],
    pub ghost small: { (F G : ℕ) → HasPair by F G → (F < MOST_ATOMS) × (G < MOST_ATOMS) },
}

impl Attacks {
    ghost use Rattle.std.specs.Prelude.{◌↔◌, IsTrue};
    ghost use Rattle.key_closure.specs.Sets.{HasAtom};
    ghost use Rattle.attack_graph.specs.Attacking.{HasAttack, HasWeakAttack};

    /// Does an atom attack another?
    pub fn has(&self, attacker: u32, attacked: u32) -> bool
        requires attacker { attacker < MOST_ATOMS }
        requires attacked { attacked < MOST_ATOMS }
        ensures { IsTrue result ↔ HasAttack self.now attacker attacked }
    {
        self.by[attacker as usize].has(attacked)
    }

    /// Is this attack of an atom on another weak?
    pub fn weak(&self, attacker: u32, attacked: u32) -> bool
        requires attacker { attacker < MOST_ATOMS }
        requires attacked { attacked < MOST_ATOMS }
        requires attack { HasAttack self.now attacker attacked }
        ensures { IsTrue result ↔ HasWeakAttack self.now attacker attacked }
    {
        self.weak[attacker as usize].has(attacked)
    }

    /// The atoms that an atom attacks.
    pub fn attacked_by(&self, attacker: u32) -> AtomSet
        requires { attacker < MOST_ATOMS }
        ensures { (G : ℕ) → HasAtom result G ↔ HasAttack self.now attacker G }
    {
        self.by[attacker as usize]
    }
}
