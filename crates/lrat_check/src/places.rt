//! Where the clause of each id stands.

ghost use Rattle.std.specs.Prelude.{◌≡◌, ◌≢◌, ℕ, ◌<◌, OnOk, OnErr, Some, None, true, false};
ghost use Rattle.std.specs.BTreeMap.{get};
ghost use Rattle.lrat_check.specs.Places.{near_at, place_of, with_place, without_place};

use cqa_value::NoMemory;
use std::alloc::Global;
use std::collections::BTreeMap;

/// Where a clause's literals stand in the pool.
#[derive(Clone, Copy)]
pub struct Place {
    pub from: usize,
    pub to: usize,
}

/// How many ids a clause that is added makes room for.
const SPREAD: usize = 4;

/// The places of ids: a list for those that are near together, and a map for those far apart, so that the memory grows with
/// the number of clauses and not with their ids.
#[derive(Drop)]
pub struct Places {
    pub near: Vec<Option<Place>>,
    pub far: BTreeMap<u64, Place>,
    /// How many clauses were added.
    pub added: usize,
}

impl Places {
    /// No place.
    pub fn new(alloc: Global) -> Places
        ensures { (k : ℕ) → place_of result k ≡ None }
    {
        Places {
            near: Vec::new(alloc),
            far: BTreeMap::new(alloc),
            added: 0,
        }
    }

    fn near_at(&self, id: u64) -> Option<Place>
        ensures { result ≡ near_at self.now.near.items id }
    {
        *self.near.get(id as usize)?
    }

    /// The place of an id.
    pub fn get(&self, id: u64) -> Option<Place>
        ensures { result ≡ place_of self.now id }
    {
        match self.near_at(id) {
            Some(place) => Some(place),
            None => self.far.get(&id).copied(),
        }
    }

    /// Makes room for an id in the list, if it isn't too far.
    fn grow(&mut self, id: u64) -> Result<(), NoMemory>
        ensures { (k : ℕ) → place_of self.new k ≡ place_of self.old k }
    {
        self.added = self.added.saturating_add(1);
        let index = id as usize;
        if self.near.len() <= index && index < self.added.saturating_mul(SPREAD) {
            self.near.resize(index + 1, None)?;
        }
        Ok(())
    }

    fn set(&mut self, id: u64, place: Place) -> Result<(), NoMemory>
        ensures err { OnErr result ((k : ℕ) → place_of self.new k ≡ place_of self.old k) }
        ensures set { OnOk result ((k : ℕ) → place_of self.new k ≡ with_place (place_of self.old) id place k) }
    {
        let index = id as usize;
        if index < self.near.len() {
            self.near[index] = Some(place);
        } else {
            self.far.insert(id, place)?;
        }
        Ok(())
    }

    /// Gives an id its place.
    pub fn insert(&mut self, id: u64, place: Place) -> Result<(), NoMemory>
        ensures err { OnErr result ((k : ℕ) → place_of self.new k ≡ place_of self.old k) }
        ensures set { OnOk result ((k : ℕ) → place_of self.new k ≡ with_place (place_of self.old) id place k) }
    {
        self.grow(id)?;
        self.set(id, place)
    }

    fn clear_near(&mut self, id: u64)
        ensures near { (k : ℕ) → near_at self.new.near.items k ≡ without_place (near_at self.old.near.items) id k }
        ensures far { self.new.far ≡ self.old.far }
    {
        let index = id as usize;
        if index < self.near.len() {
            self.near[index] = None;
        }
    }

    /// Takes the place of an id away, and tells whether there was one.
    pub fn remove(&mut self, id: u64) -> bool
        ensures yes { result ≡ true → place_of self.old id ≢ None }
        ensures no { result ≡ false → place_of self.old id ≡ None }
        ensures places { (k : ℕ) → place_of self.new k ≡ without_place (place_of self.old) id k }
    {
        let found = self.get(id).is_some();
        self.clear_near(id);
        let _ = self.far.remove(&id);
        found
    }
}
