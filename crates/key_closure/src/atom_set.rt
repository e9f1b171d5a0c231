//! Sets of the atoms of a query.

use cqa_model::MOST_ATOMS;

/// A set of a query's atoms, each by its place, below `MOST_ATOMS`.
#[derive(Clone, Copy)]
pub struct AtomSet {
    bits: [bool; MOST_ATOMS as usize],
}

impl AtomSet {
    ghost use Rattle.std.specs.Prelude.{◌≡◌, ◌≢◌, ℕ, ◌<◌, ◌↔◌, ◌⊎◌, IsTrue, MatchOption};
    ghost use Rattle.cqa_model.specs.declared.limits.TheConstants.{MOST_ATOMS};
    ghost use Rattle.key_closure.specs.Sets.{HasAtom, size};

    /// The empty set.
    pub fn new() -> AtomSet
        ensures { (k : ℕ) → HasAtom result k → ⊥ }
    {
        AtomSet {
            bits: [false; MOST_ATOMS as usize],
        }
    }

    /// All places that an atom can have.
    pub fn full() -> AtomSet
        ensures { (k : ℕ) → HasAtom result k ↔ (k < MOST_ATOMS) }
    {
        AtomSet {
            bits: [true; MOST_ATOMS as usize],
        }
    }

    /// Is the atom in the set?
    pub fn has(&self, atom: u32) -> bool
        requires { atom < MOST_ATOMS }
        ensures { IsTrue result ↔ HasAtom self.now atom }
    {
        self.bits[atom as usize]
    }

    /// Adds an atom if it is wanted.
    pub fn insert_if(&mut self, atom: u32, wanted: bool)
        requires { atom < MOST_ATOMS }
        ensures { (k : ℕ) → HasAtom self.new k ↔ (HasAtom self.old k ⊎ (IsTrue wanted × (k ≡ atom))) }
    {
        if wanted {
            self.bits[atom as usize] = true;
        }
    }

    /// The atoms in either set.
    pub fn union(&self, other: &AtomSet) -> AtomSet
        ensures { (k : ℕ) → HasAtom result k ↔ (HasAtom self.now k ⊎ HasAtom other.now k) }
    {
        let mut set = *self;
        for atom in 0..MOST_ATOMS {
            set.insert_if(atom, other.has(atom));
        }
        set
    }

    /// The first atom that is in both sets.
    pub fn first_shared(&self, other: &AtomSet) -> Option<u32>
        ensures { MatchOption result ((k : ℕ) → HasAtom self.now k → HasAtom other.now k → ⊥)
            (λ k. (k < MOST_ATOMS) × HasAtom self.now k × HasAtom other.now k × ((j : ℕ) → j < k → HasAtom self.now j → HasAtom other.now j → ⊥)) }
    {
        for atom in 0..MOST_ATOMS {
            if self.has(atom) && other.has(atom) {
                return Some(atom);
            }
        }
        None
    }

    /// Is no atom in the set?
    pub fn is_empty(&self) -> bool
        ensures { IsTrue result ↔ ((k : ℕ) → HasAtom self.now k → ⊥) }
    {
        for atom in 0..MOST_ATOMS {
            if self.has(atom) {
                return false;
            }
        }
        true
    }

    /// Takes an atom out.
    pub fn remove(&mut self, atom: u32)
        requires within { atom < MOST_ATOMS }
        requires there { HasAtom self.old atom }
        ensures is { (k : ℕ) → HasAtom self.new k ↔ (HasAtom self.old k × (k ≢ atom)) }
        ensures fewer { size self.new < size self.old }
    {
        self.bits[atom as usize] = false;
    }
}
