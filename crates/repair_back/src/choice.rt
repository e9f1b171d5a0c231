//! What is kept of a table: of each block one row, as a flag for each row.

ghost use Rattle.std.specs.Prelude.{◌≡◌, ◌<◌, ◌≤◌, ◌≢◌, ◌⊎◌, ◌↔◌, ℕ, true, false, IfOk, length, slice_index_or, replicate};
ghost use Rattle.std.specs.List.Sorted.{IsStrictlySortedBy};
ghost use Rattle.cqa_model.specs.Database.{block_cmp};
ghost use Rattle.repair_back.specs.Flags.{IsFlagged, HasOneFlagEach};
ghost use Rattle.cqa_model.specs.Blocks.{IsPick};

use crate::blocks::block_end;
use cqa_value::NoMemory;
use row_pieces::Rows;
use std::alloc::Global;
use std::marker::Model;

/// A flag for each row of a table, by the rows' places.
#[derive(Drop)]
pub struct Choice {
    flags: Vec<bool>,
}

impl Model for Choice {
    ghost use Rattle.std.specs.Prelude.{List, Bool};

    ghost Value = { List Bool };

    ghost view = { λ c. c.flags.items };
}

impl Choice {
    /// No flag set of so many.
    ///
    /// # Errors
    ///
    /// `NoMemory` where memory is refused.
    pub fn blank(alloc: Global, count: usize) -> Result<Choice, NoMemory>
        ensures { IfOk result (λ choice. choice ≡ replicate count false) }
    {
        Ok(Choice {
            flags: vec![in alloc; false; count]?,
        })
    }

    /// Whether the flag at a place is set.
    pub fn has(&self, place: usize) -> bool
        requires { place < length self.now }
        ensures { result ≡ slice_index_or self.now place false }
    {
        self.flags[place]
    }

    /// Sets the flag at a place, if there is one.
    pub fn set(&mut self, place: usize)
        ensures size { length self.new ≡ length self.old }
        ensures is { (p : ℕ) → IsFlagged self.new p ↔ (IsFlagged self.old p ⊎ ((p ≡ place) × (p < length self.old))) }
    {
        if place < self.flags.len() {
            self.flags[place] = true;
        }
    }

    /// The place of the row that is kept among those from one place to another.
    pub fn kept_in(&self, start: usize, end: usize) -> usize
        requires some { (p : ℕ) × (start ≤ p) × (p < end) × IsFlagged self.now p }
        ensures after { start ≤ result }
        ensures before { result < end }
        ensures kept { IsFlagged self.now result }
    {
        let mut at = start;
        while !self.flags[at] {
            at += 1;
        }
        at
    }

    /// Keeps another row of a block.
    pub fn exchange(&mut self, out: usize, into: usize)
        requires out { out < length self.old }
        requires into { into < length self.old }
        ensures size { length self.new ≡ length self.old }
        ensures is { (p : ℕ) → IsFlagged self.new p ↔ ((p ≡ into) ⊎ (IsFlagged self.old p × (p ≢ out))) }
    {
        self.flags[out] = false;
        self.flags[into] = true;
    }

    /// The first place from one to another whose flag is set, or else the first of these places.
    fn first_in(&self, start: usize, end: usize) -> usize
        requires some { start < end }
        requires within { end ≤ length self.now }
        ensures after { start ≤ result }
        ensures before { result < end }
        ensures best { (i : ℕ) → start ≤ i → i < end → IsFlagged self.now i → IsFlagged self.now result }
        ensures first { (i : ℕ) → start ≤ i → i < result → IsFlagged self.now result × (slice_index_or self.now i false ≡ false) }
    {
        let mut at = start;
        while at < end {
            if self.flags[at] {
                return at;
            }
            at += 1;
        }
        start
    }

    /// Sets one of the flags from one place to another, and clears the others.
    fn set_only(&mut self, start: usize, end: usize, kept: usize)
        requires after { start ≤ kept }
        requires before { kept < end }
        requires within { end ≤ length self.old }
        ensures size { length self.new ≡ length self.old }
        ensures is { (p : ℕ) → IsFlagged self.new p ↔ ((p ≡ kept) ⊎ (IsFlagged self.old p × ((p < start) ⊎ (end ≤ p)))) }
    {
        for place in start..end {
            self.flags[place] = place == kept;
        }
    }

    /// Keeps of each block the first row whose flag is set, or else the first row.
    pub fn settle(&mut self, rows: &Rows<'_>, key: &[u32])
        requires order { IsStrictlySortedBy (block_cmp key.now) rows.now }
        requires size { length self.old ≡ length rows.now }
        ensures choice { HasOneFlagEach key.now rows.now self.new }
        ensures picks { (p : ℕ) → IsFlagged self.new p → IsPick key.now rows.now (IsFlagged self.old) p }
    {
        let mut at = 0;
        while at < rows.len() {
            let end = block_end(rows, key, at);
            let first = self.first_in(at, end);
            self.set_only(at, end, first);
            at = end;
        }
    }
}
