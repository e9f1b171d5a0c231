//! The live clauses: one pool of literals, and the place of each clause by its id.

ghost use Rattle.std.specs.Prelude.{◌≡◌, ℕ, OnOk, MatchOption, ◌≢◌, Some, None, true, false};
ghost use Rattle.lrat_check.specs.Places.{AreWithin};
ghost use Rattle.cnf_form.specs.Logs.{with_clause, without};

use crate::places::{Place, Places};
use cnf_form::Lit;
use cqa_value::NoMemory;
use std::alloc::Global;

/// The literals of the clauses that were added, and where those of each live clause stand.
#[derive(Drop)]
pub struct Store {
    pub pool: Vec<Lit>,
    pub places: Places,
    ghost within: { AreWithin pool.items places },
}

impl Store {
    ghost use Rattle.lrat_check.specs.Store.{live_of};

    /// No clause.
    pub fn new(alloc: Global) -> Store
        ensures { (k : ℕ) → live_of result k ≡ None }
    {
        Store {
            pool: Vec::new(alloc),
            places: Places::new(alloc),
        }
    }

    /// The live clause of an id.
    pub fn clause(&self, id: u64) -> Option<&[Lit]>
        ensures { MatchOption result (live_of self.now id ≡ None) (λ c. live_of self.now id ≡ Some c.now) }
    {
        let place = self.places.get(id)?;
        Some(&self.pool[place.from..place.to])
    }

    /// Makes a clause live under an id.
    pub fn add(&mut self, id: u64, clause: &[Lit]) -> Result<(), NoMemory>
        ensures { OnOk result ((k : ℕ) → live_of self.new k ≡ with_clause (live_of self.old) id clause.now k) }
    {
        let from = self.pool.len();
        self.pool.extend_from_slice(clause)?;
        let to = self.pool.len();
        self.places.insert(id, Place { from, to })
    }

    /// Takes the clause of an id away, and tells whether there was one.
    pub fn remove(&mut self, id: u64) -> bool
        ensures yes { result ≡ true → live_of self.old id ≢ None }
        ensures no { result ≡ false → live_of self.old id ≡ None }
        ensures live { (k : ℕ) → live_of self.new k ≡ without (live_of self.old) id k }
    {
        self.places.remove(id)
    }
}
