//! Rows that are held, in the order in which they were put.

ghost use Rattle.std.specs.Prelude.{◌≡◌, ◌+◌, ◌-◌, ◌≤◌, ◌++◌, ◌∷◌, Bool, List, IfOk, IfNone, IfSome, OnOk, OnErr, [], length, map, filter, take, drop};
ghost use Rattle.std.specs.Fn.{ComputesKey};
ghost use Rattle.cqa_value.specs.declared.value.Value.{Value as Cell};
ghost use Rattle.row_pieces.specs.Inserted.{with_items, AreRising};

use crate::add::push_behind;
use crate::piece::{Piece, last_of, renumber};
use crate::put::put;
use crate::rows::Rows;
use crate::take::{exchange_each, give_each, retain_each, retain_told_each, settle};
use cqa_value::{NoMemory, Row};
use std::alloc::Global;
use std::marker::Model;

/// Rows one after the other, in pieces of up to some hundred, so that to put one in or to take it out moves those of a piece
/// and not all behind it. A piece is begun only where another one is full, or has no room for all rows that go behind it, and
/// goes when a removal takes the last of its rows; an insert that is refused may leave one without rows. Pieces that removals
/// leave small aren't joined, so there may be as many as rows.
pub struct Pieces {
    pieces: Vec<Piece>,
    count: usize,
}

impl Drop for Pieces {
    fn drop(self) {
        let Pieces {
            pieces: _,
            count: _,
        } = self;
    }
}

impl Model for Pieces {
    ghost use Rattle.std.specs.Prelude.{◌≡◌, List, length};
    ghost use Rattle.cqa_value.specs.declared.value.Value.{Value as Cell};
    ghost use Rattle.row_pieces.specs.Joined.{joined, ArePlaced};

    ghost Value = { List (List Cell) };

    ghost view = { λ p. joined p.pieces.items };

    ghost invariant = { λ p. ArePlaced 0 p.pieces.items × (p.count ≡ length (joined p.pieces.items)) };
}

impl Pieces {
    /// No rows.
    pub fn new(alloc: Global) -> Pieces
        ensures { result ≡ [] }
    {
        Pieces {
            pieces: Vec::new(alloc),
            count: 0,
        }
    }

    /// The rows.
    pub fn rows(&self) -> Rows<'_>
        ensures { result ≡ self.now }
    {
        Rows::all(self.pieces.as_slice(), self.count)
    }

    /// The allocator that it takes memory from.
    pub fn allocator(&self) -> Global {
        *self.pieces.allocator()
    }

    /// Puts a row behind the others.
    ///
    /// # Errors
    ///
    /// `NoMemory` where memory is refused; nothing has changed then.
    pub fn push(&mut self, row: Row) -> Result<(), NoMemory>
        ensures ok { OnOk result (self.new ≡ self.old ++ row ∷ []) }
        ensures err { OnErr result (self.new ≡ self.old) }
    {
        let Some(count) = self.count.checked_add(1) else {
            return Err(NoMemory);
        };
        push_behind(&mut self.pieces, self.count, row)?;
        self.count = count;
        Ok(())
    }

    /// The last row. An insert that was refused may have left a last piece without rows; the row is found by its place then.
    pub fn last(&self) -> Option<&Row>
        ensures some { IfSome result (λ row. (before : List (List Cell)) × (self.now ≡ before ++ row.now ∷ [])) }
        ensures none { IfNone result (self.now ≡ []) }
    {
        match last_of(self.pieces.as_slice()) {
            Some(row) => Some(row),
            None if self.count == 0 => None,
            None => Some(self.rows().get(self.count - 1)),
        }
    }

    /// The rows as one list. Each piece's memory is given back once its rows are moved.
    ///
    /// # Errors
    ///
    /// `NoMemory` where memory is refused.
    pub fn into_vec(self) -> Result<Vec<Row>, NoMemory>
        ensures { IfOk result (λ rows. rows.items ≡ self) }
    {
        let Pieces { mut pieces, count } = self;
        let mut rows = Vec::with_capacity(*pieces.allocator(), count)?;
        let given = give_each(pieces.as_mut_slice(), &mut rows);
        drop(pieces);
        if given.is_err() {
            drop(rows);
            return Err(NoMemory);
        }
        Ok(rows)
    }

    /// Puts rows in, each before the one that stands at its place.
    ///
    /// # Errors
    ///
    /// `NoMemory` where memory is refused; nothing has changed then.
    pub fn insert(&mut self, mut rows: Vec<Row>, places: &[usize]) -> Result<(), NoMemory>
        requires each { length places.now ≡ length rows.items }
        requires rising { AreRising 0 (length self.old) places.now }
        ensures ok { OnOk result (self.new ≡ with_items self.old rows.items places.now) }
        ensures err { OnErr result (self.new ≡ self.old) }
    {
        let done = put(&mut self.pieces, self.count, &mut rows, places);
        let kept = match done {
            Ok(kept) => kept,
            Err(_) => 0,
        };
        self.count = renumber(self.pieces.as_mut_slice(), kept);
        done?;
        Ok(())
    }

    /// Takes the rows of a stretch away that don't pass a test.
    pub fn retain_in<P: FnMut(&Row) -> bool>(&mut self, from: usize, to: usize, stays: P)
        requires callable { P.IsAlwaysCallable stays }
        requires order { from ≤ to }
        requires within { to ≤ length self.old }
        ensures retained { (p : List Cell → Bool) → ComputesKey P.FnMut p stays → self.new ≡ (take from self.old ++ filter p (take (to - from) (drop from self.old))) ++ drop to self.old }
        ensures fewer { length self.new ≤ length self.old }
    {
        let (first, emptied) = retain_each(self.pieces.as_mut_slice(), from, to, stays);
        self.count = settle(&mut self.pieces, first, emptied);
    }

    /// Takes the rows of a stretch away that aren't told to stay.
    pub fn retain_told(&mut self, from: usize, stays: &[bool])
        requires within { from + length stays.now ≤ length self.old }
        ensures retained { (p : List Cell → Bool) → stays.now ≡ map p (take (length stays.now) (drop from self.old)) → self.new ≡ (take from self.old ++ filter p (take (length stays.now) (drop from self.old))) ++ drop (from + length stays.now) self.old }
        ensures fewer { length self.new ≤ length self.old }
    {
        let count = self.rows().len();
        prove!(from <= count);
        let to = from + stays.len();
        let (first, emptied) = retain_told_each(self.pieces.as_mut_slice(), from, to, stays);
        self.count = settle(&mut self.pieces, first, emptied);
    }

    /// Exchanges all rows for as many others.
    pub fn exchange(&mut self, rows: &mut [Row])
        requires { length rows.old ≡ length self.old }
        ensures held { self.new ≡ rows.old }
        ensures given { rows.new ≡ self.old }
    {
        exchange_each(self.pieces.as_mut_slice(), rows);
        self.count = renumber(self.pieces.as_mut_slice(), 0);
    }
}
