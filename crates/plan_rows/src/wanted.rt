//! By what rows of a table are looked for: by nothing, along an index, or in a list of places.

ghost use Rattle.std.specs.Prelude.{◌<◌, ◌≤◌, ◌+◌, ℕ, Contains, length, slice_index_or};
ghost use Rattle.std.specs.Ordering.{nat_cmp};
ghost use Rattle.std.specs.List.Sorted.{IsStrictlySortedBy};

use join_access::RowIndex;
use row_order::Probe;

/// By what rows of a table are looked for.
#[derive(Drop)]
pub enum Wanted<'x> {
    /// Each row.
    All,
    /// The rows with these values in the columns of an index.
    Indexed(&'x RowIndex<'x>, Probe<'x>),
    /// The rows at these places, ascending, each once.
    Listed(Vec<u32>),
}

/// How many of some ascending places are below another.
fn count_below(places: &[u32], from: usize) -> usize
    requires { IsStrictlySortedBy nat_cmp places.now }
    ensures low { result < length places.now → from ≤ slice_index_or places.now result 0 }
    ensures high { (i : ℕ) → from ≤ i → Contains places.now i → (result < length places.now) × (slice_index_or places.now result 0 ≤ i) }
{
    places.partition_point(|place| (*place as usize) < from)
}

/// The first of some ascending places that is not below another, but no more than a size.
fn place_from(places: &[u32], from: usize, size: usize) -> usize
    requires order { IsStrictlySortedBy nat_cmp places.now }
    requires within { from ≤ size }
    ensures low { from ≤ result }
    ensures within { result ≤ size }
    ensures none { (i : ℕ) → from ≤ i → i < result → Contains places.now i → ⊥ }
{
    let at = count_below(places, from);
    if at < places.len() {
        (places[at] as usize).min(size)
    } else {
        size
    }
}

impl<'x> Wanted<'x> {
    ghost use Rattle.plan_rows.specs.Wanted.{NoneWanted, IsOfSize};

    /// The first of `size` places at which a row may be looked for: none before it is. `size` where there is none.
    pub fn first(&self, size: usize) -> usize
        requires { IsOfSize self.now size }
        ensures within { result ≤ size }
        ensures none { NoneWanted self.now 0 result }
    {
        match self {
            Wanted::All => 0,
            Wanted::Indexed(index, values) => index.first(values),
            Wanted::Listed(places) => place_from(places.as_slice(), 0, size),
        }
    }

    /// The next such place behind `at`; `size` where there is none.
    pub fn after(&self, size: usize, at: usize) -> usize
        requires size { IsOfSize self.now size }
        requires there { at < size }
        ensures later { at < result }
        ensures within { result ≤ size }
        ensures none { NoneWanted self.now (at + 1) result }
    {
        match self {
            Wanted::All => at + 1,
            Wanted::Indexed(index, values) => index.after(at, values),
            Wanted::Listed(places) => place_from(places.as_slice(), at + 1, size),
        }
    }

    /// The first such place from `low` on, where the one looked at last is `at`; `size` where there is none.
    pub fn resume(&self, size: usize, at: usize, low: usize) -> usize
        requires size { IsOfSize self.now size }
        requires behind { at < low }
        requires within { low ≤ size }
        ensures low { low ≤ result }
        ensures within { result ≤ size }
        ensures none { NoneWanted self.now low result }
    {
        if let Wanted::Listed(places) = self {
            return place_from(places.as_slice(), low, size);
        }
        let mut place = self.after(size, at);
        while place < low {
            place = self.after(size, place);
        }
        place
    }
}
