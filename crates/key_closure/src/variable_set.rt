//! Sets of the variables of a query.

use cqa_model::COLUMN_NUMBERS;

/// A set of variables, each by its class, below `COLUMN_NUMBERS`.
#[derive(Clone, Copy)]
pub struct VarSet {
    bits: [bool; COLUMN_NUMBERS],
}

impl VarSet {
    ghost use Rattle.std.specs.Prelude.{◌≡◌, ℕ, ◌<◌, ◌↔◌, ◌⊎◌, IsTrue};
    ghost use Rattle.cqa_model.specs.declared.limits.TheConstants.{COLUMN_NUMBERS};
    ghost use Rattle.key_closure.specs.Sets.{Has};

    /// The empty set.
    pub fn new() -> VarSet
        ensures { (k : ℕ) → Has result k → ⊥ }
    {
        VarSet {
            bits: [false; COLUMN_NUMBERS],
        }
    }

    /// Is the class in the set?
    pub fn has(&self, class: u8) -> bool
        requires { class < COLUMN_NUMBERS }
        ensures { IsTrue result ↔ Has self.now class }
    {
        self.bits[class as usize]
    }

    /// Adds a class if it is wanted.
    pub fn insert_if(&mut self, class: u8, wanted: bool)
        requires { class < COLUMN_NUMBERS }
        ensures { (k : ℕ) → Has self.new k ↔ (Has self.old k ⊎ (IsTrue wanted × (k ≡ class))) }
    {
        self.bits[class as usize] = self.bits[class as usize] || wanted;
    }

    /// The classes in either set.
    pub fn union(&self, other: &VarSet) -> VarSet
        ensures { (k : ℕ) → Has result k ↔ (Has self.now k ⊎ Has other.now k) }
    {
        let mut set = *self;
        for k in 0..COLUMN_NUMBERS as u8 {
            set.insert_if(k, other.has(k));
        }
        set
    }

    /// The classes that are not in the other set.
    pub fn without(&self, other: &VarSet) -> VarSet
        ensures { (k : ℕ) → Has result k ↔ (Has self.now k × (Has other.now k → ⊥)) }
    {
        let mut set = VarSet::new();
        for k in 0..COLUMN_NUMBERS as u8 {
            set.insert_if(k, self.has(k) && !other.has(k));
        }
        set
    }

    /// Is each class in the other set?
    pub fn is_within(&self, other: &VarSet) -> bool
        ensures { IsTrue result ↔ ((k : ℕ) → Has self.now k → Has other.now k) }
    {
        for k in 0..COLUMN_NUMBERS as u8 {
            if self.has(k) && !other.has(k) {
                return false;
            }
        }
        true
    }

    /// Is some class in both sets?
    pub fn meets(&self, other: &VarSet) -> bool
        ensures { IsTrue result ↔ ((k : ℕ) × Has self.now k × Has other.now k) }
    {
        for k in 0..COLUMN_NUMBERS as u8 {
            if self.has(k) && other.has(k) {
                return true;
            }
        }
        false
    }
}
