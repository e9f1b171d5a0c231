//! Places of rows, gathered in a list that is put in order now and then, so that it holds few of them more than once.

ghost use Rattle.std.specs.Prelude.{◌↔◌, ℕ, [], ◌≡◌, OnOk, Contains};
ghost use Rattle.std.specs.Ordering.{nat_cmp};
ghost use Rattle.std.specs.List.Sorted.{IsStrictlySortedBy};

use cqa_value::NoMemory;
use std::alloc::Global;
use std::marker::Model;

/// So many places at least come between two sorts.
const FEW: usize = 64;

/// Places, some of them more than once: whenever there are twice as many as after the last time, they are put in order and each
/// is kept once. So there are never more than twice as many as different ones, or `2 * FEW`.
#[derive(Drop)]
pub(crate) struct PlaceSet {
    places: Vec<u32>,

    /// How many there were after the last sort.
    settled: usize,
}

impl Model for PlaceSet {
    ghost use Rattle.std.specs.Prelude.{ℕ, List};

    ghost Value = { List ℕ };

    ghost view = { λ s. s.places.items };
}

/// Puts places in order, each once.
fn put_in_order(places: &mut Vec<u32>)
    ensures ascending { IsStrictlySortedBy nat_cmp places.new.items }
    ensures same { (p : ℕ) → Contains places.new.items p ↔ Contains places.old.items p }
{
    places.sort_unstable();
    places.dedup();
}

impl PlaceSet {
    /// No places.
    pub fn new(alloc: Global) -> PlaceSet
        ensures { result ≡ [] }
    {
        PlaceSet {
            places: Vec::new(alloc),
            settled: 0,
        }
    }

    /// Puts a place in.
    ///
    /// # Errors
    ///
    /// `NoMemory` where memory is refused.
    pub fn put(&mut self, place: u32) -> Result<(), NoMemory>
        ensures kept { OnOk result ((p : ℕ) → Contains self.old p → Contains self.new p) }
        ensures added { OnOk result (Contains self.new place) }
    {
        self.places.push(place)?;
        if self.places.len() / 2 >= self.settled.max(FEW) {
            put_in_order(&mut self.places);
            self.settled = self.places.len();
        }
        Ok(())
    }

    /// The places, ascending and each once.
    pub fn listed(self) -> Vec<u32>
        ensures ascending { IsStrictlySortedBy nat_cmp result.items }
        ensures same { (p : ℕ) → Contains result.items p ↔ Contains self p }
    {
        let PlaceSet {
            mut places,
            settled: _,
        } = self;
        put_in_order(&mut places);
        places
    }
}
