//! Lists of a bounded number of values, which lie in the list itself and take no memory.

ghost use Rattle.std.specs.Prelude.{◌≡◌, ◌<◌, ◌≤◌, length, [], ◌∷◌, ◌++◌, take, MatchOption};

use crate::null_allocator::NullAllocator;
use smallvec::SmallVec;
use std::marker::Model;

/// At most `N` values, in places of the list itself: a `SmallVec` that never spills.
#[derive(Drop)]
pub struct InlineVec<T, const N: usize> {
    values: SmallVec<T, N, NullAllocator>,
}

impl<T, const N: usize> Model for InlineVec<T, N> {
    ghost use Rattle.std.specs.Prelude.{◌≡◌, ◌≤◌, List, length};

    ghost Value = { List T };

    ghost view = { λ v. v.values.items };

    ghost invariant = { λ v. (v.values.capacity ≡ N) × (length v.values.items ≤ N) };
}

impl<T: Default + Drop, const N: usize> InlineVec<T, N> {
    /// No values.
    pub fn new() -> InlineVec<T, N>
        ensures { result ≡ [] }
    {
        InlineVec {
            values: SmallVec::new(NullAllocator),
        }
    }

    /// Adds a value at the end.
    pub fn push(&mut self, value: T)
        requires { length self.old < N }
        ensures { self.new ≡ self.old ++ value ∷ [] }
    {
        self.values.push_reserved(value);
    }

    /// Takes the last value, if there is one.
    pub fn pop(&mut self) -> Option<T>
        ensures { MatchOption result ((self.old ≡ []) × (self.new ≡ [])) (λ value. self.old ≡ self.new ++ value ∷ []) }
    {
        self.values.pop()
    }

    /// Keeps the first values.
    pub fn truncate(&mut self, count: usize)
        ensures { self.new ≡ take count self.old }
    {
        self.values.truncate(count);
    }
}

impl<T: Default + Copy + Drop, const N: usize> InlineVec<T, N> {
    /// The same values.
    pub fn copy(&self) -> InlineVec<T, N>
        ensures { result ≡ self.now }
    {
        match SmallVec::from_slice(NullAllocator, self.values.as_slice()) {
            Ok(values) => InlineVec { values },
            Err(_) => unreachable!(),
        }
    }
}

impl<T, const N: usize> InlineVec<T, N> {
    /// The number of values, at most `N`.
    pub fn len(&self) -> usize
        ensures value { result ≡ length self.now }
        ensures small { result ≤ N }
    {
        self.values.len()
    }

    /// The values.
    pub fn as_slice(&self) -> &[T]
        ensures value { result.now ≡ self.now }
        ensures small { length self.now ≤ N }
    {
        self.values.as_slice()
    }
}

impl<T: Default + Drop, const N: usize> Default for InlineVec<T, N> {
    ghost is_default = { λ v. v ≡ [] };

    fn default() -> InlineVec<T, N> {
        InlineVec::new()
    }
}
