//! Rows that are kept with their marks.

ghost use Rattle.std.specs.Prelude.{◌≡◌, ◌≤◌, ◌<◌, ◌+◌, ◌-◌, ◌++◌, ◌==◌, ◌∷◌, Bool, List, IfOk, OnOk, OnErr, [], length, map, take, drop, slice_get};
ghost use Rattle.std.specs.Fn.{ComputesKey};
ghost use Rattle.std.specs.List.{insert, remove};
ghost use Rattle.std.specs.Vec.{vec_len, vec_capacity};
ghost use Rattle.cqa_value.specs.declared.value.Value.{Value as Cell};
ghost use Rattle.row_pieces.specs.Marks.{row_mark};
ghost use Rattle.row_pieces.specs.Retained.{retained};

use crate::guess::{comes_before, first_of, first_with, place_among};
use crate::keep::{keep_in, keep_told_in};
use crate::mark::mark_of_row;
use cqa_value::{NoMemory, Row};
use std::alloc::Global;
use std::marker::Model;
use std::mem::replace;

/// For how many rows more room is made at least where there is none, so that little is left over.
const STEP: usize = 32;

/// Rows one after the other, and the mark of each.
pub struct MarkedRows {
    rows: Vec<Row>,
    marks: Vec<u64>,

    /// Mostly the first mark, so that a search reads less. Nothing is promised of it.
    first: u64,
}

impl Drop for MarkedRows {
    fn drop(self) {
        let MarkedRows {
            rows: _,
            marks: _,
            first: _,
        } = self;
    }
}

impl Model for MarkedRows {
    ghost use Rattle.std.specs.Prelude.{◌≡◌, List, map};
    ghost use Rattle.cqa_value.specs.declared.value.Value.{Value as Cell};
    ghost use Rattle.row_pieces.specs.Marks.{row_mark};

    ghost Value = { List (List Cell) };

    ghost view = { λ m. m.rows.items };

    ghost invariant = { λ m. m.marks.items ≡ map row_mark m.rows.items };
}

/// Makes room for so many items more.
fn make_room<T>(items: &mut Vec<T>, more: usize) -> Result<(), NoMemory>
    ensures same { items.new.items ≡ items.old.items }
    ensures room { OnOk result (vec_len items.new + more ≤ vec_capacity items.new) }
{
    if items.capacity() - items.len() < more {
        items.reserve_exact(more.max(STEP))?;
    }
    Ok(())
}

/// Puts the marks of rows behind others, for which there is room.
fn push_marks(marks: &mut Vec<u64>, rows: &[Row])
    requires { vec_len marks.old + length rows.now ≤ vec_capacity marks.old }
    ensures { marks.new.items ≡ marks.old.items ++ map row_mark rows.now }
{
    for at in 0..rows.len() {
        marks.push_reserved(mark_of_row(&rows[at]));
    }
}

/// The marks of rows.
fn marks_of(alloc: Global, rows: &[Row]) -> Result<Vec<u64>, NoMemory>
    ensures { IfOk result (λ marks. marks.items ≡ map row_mark rows.now) }
{
    let mut marks = Vec::with_capacity(alloc, rows.len())?;
    push_marks(&mut marks, rows);
    Ok(marks)
}

/// A second list of the same marks.
fn copy(alloc: Global, marks: &[u64]) -> Result<Vec<u64>, NoMemory>
    ensures { IfOk result (λ copy. copy.items ≡ marks.now) }
{
    let mut copy = Vec::with_capacity(alloc, marks.len())?;
    copy.extend_from_slice(marks)?;
    Ok(copy)
}

/// Sets the mark of each row.
fn set_marks(marks: &mut [u64], rows: &[Row])
    requires { length marks.old ≡ length rows.now }
    ensures { marks.new ≡ map row_mark rows.now }
{
    for at in 0..rows.len() {
        marks[at] = mark_of_row(&rows[at]);
    }
}

/// Takes the items of a range away.
fn cut_out<T: Drop>(items: &mut Vec<T>, from: usize, to: usize)
    requires order { from ≤ to }
    requires within { to ≤ length items.old.items }
    ensures { items.new.items ≡ take from items.old.items ++ drop to items.old.items }
{
    drop(items.drain(from..to));
}

impl MarkedRows {
    /// Rows with their marks.
    ///
    /// # Errors
    ///
    /// `NoMemory` where memory is refused.
    pub fn of(rows: Vec<Row>) -> Result<MarkedRows, NoMemory>
        ensures { IfOk result (λ marked. marked ≡ rows.items) }
    {
        match marks_of(*rows.allocator(), rows.as_slice()) {
            Ok(marks) => {
                let first = first_of(marks.as_slice());
                Ok(MarkedRows { rows, marks, first })
            }
            Err(refused) => {
                drop(rows);
                Err(refused)
            }
        }
    }

    /// No rows.
    pub fn new(alloc: Global) -> MarkedRows
        ensures { result ≡ [] }
    {
        MarkedRows {
            rows: Vec::new(alloc),
            marks: Vec::new(alloc),
            first: 0,
        }
    }

    /// No rows, with room made for so many.
    ///
    /// # Errors
    ///
    /// `NoMemory` where memory is refused.
    pub fn with_room(alloc: Global, count: usize) -> Result<MarkedRows, NoMemory>
        ensures { IfOk result (λ marked. marked ≡ []) }
    {
        let marks = Vec::with_capacity(alloc, count)?;
        let rows = Vec::with_capacity(alloc, count)?;
        let first = 0;
        Ok(MarkedRows { rows, marks, first })
    }

    /// The rows.
    pub fn as_slice(&self) -> &[Row]
        ensures { result.now ≡ self.now }
    {
        self.rows.as_slice()
    }

    /// The number of rows.
    pub fn len(&self) -> usize
        ensures { result ≡ length self.now }
    {
        self.rows.len()
    }

    /// Whether there are none.
    pub fn is_empty(&self) -> bool
        ensures { result ≡ (length self.now == 0) }
    {
        self.rows.is_empty()
    }

    /// The mark of the row at a place, from 0, if one stands there.
    pub fn mark(&self, at: usize) -> Option<u64>
        ensures { result ≡ slice_get (map row_mark self.now) at }
    {
        self.marks.get(at).copied()
    }

    /// Mostly the first mark. Nothing is promised of it.
    pub fn first_mark(&self) -> u64 {
        self.first
    }

    /// The last mark, or 0. Nothing is promised of it.
    pub fn last_mark(&self) -> u64 {
        *self.marks.last().unwrap_or(&0)
    }

    /// How many rows have a mark below one, or no greater one, if marks never fall, and go up to about a last one. Nothing is
    /// promised of it.
    pub fn expected(&self, mark: u64, with_ties: bool, last: u64) -> usize {
        place_among(self.marks.as_slice(), self.first, last, mark, with_ties)
    }

    /// Whether the first row is mostly one of those. Nothing is promised of it.
    pub fn begins_before(&self, mark: u64, with_ties: bool) -> bool {
        comes_before(self.first, mark, with_ties)
    }

    /// Puts a row in before the one at a place.
    ///
    /// # Errors
    ///
    /// `NoMemory` where memory is refused; nothing has changed then.
    pub fn insert(&mut self, at: usize, row: Row) -> Result<(), NoMemory>
        requires { at ≤ length self.old }
        ensures ok { OnOk result (self.new ≡ insert self.old at row) }
        ensures err { OnErr result (self.new ≡ self.old) }
    {
        make_room(&mut self.rows, 1)?;
        make_room(&mut self.marks, 1)?;
        let mark = mark_of_row(&row);
        self.first = first_with(self.first, at, mark);
        drop(self.marks.insert(at, mark));
        drop(self.rows.insert(at, row));
        Ok(())
    }

    /// Puts a row behind the others.
    ///
    /// # Errors
    ///
    /// `NoMemory` where memory is refused; nothing has changed then.
    pub fn push(&mut self, row: Row) -> Result<(), NoMemory>
        ensures ok { OnOk result (self.new ≡ self.old ++ row ∷ []) }
        ensures err { OnErr result (self.new ≡ self.old) }
    {
        make_room(&mut self.rows, 1)?;
        make_room(&mut self.marks, 1)?;
        let mark = mark_of_row(&row);
        self.first = first_with(self.first, self.marks.len(), mark);
        self.marks.push_reserved(mark);
        self.rows.push_reserved(row);
        Ok(())
    }

    /// Takes the row at a place out.
    pub fn remove(&mut self, at: usize)
        requires { at < length self.old }
        ensures { self.new ≡ remove self.old at }
    {
        self.marks.remove(at);
        drop(self.rows.remove(at));
    }

    /// Puts rows behind the others; none is left where they were.
    ///
    /// # Errors
    ///
    /// `NoMemory` where memory is refused; nothing has changed then.
    pub fn append(&mut self, rows: &mut Vec<Row>) -> Result<(), NoMemory>
        ensures ok { OnOk result (self.new ≡ self.old ++ rows.old.items) }
        ensures taken { OnOk result (rows.new.items ≡ []) }
        ensures err { OnErr result (self.new ≡ self.old) }
        ensures left { OnErr result (rows.new.items ≡ rows.old.items) }
    {
        make_room(&mut self.rows, rows.len())?;
        make_room(&mut self.marks, rows.len())?;
        push_marks(&mut self.marks, rows.as_slice());
        self.first = first_of(self.marks.as_slice());
        drop(self.rows.append(rows));
        Ok(())
    }

    /// Moves all rows behind others, and gives back the memory that they took.
    ///
    /// # Errors
    ///
    /// `NoMemory` where memory is refused.
    pub fn give(&mut self, others: &mut Vec<Row>) -> Result<(), NoMemory>
        ensures given { OnOk result (others.new.items ≡ others.old.items ++ self.old) }
    {
        let alloc = *self.rows.allocator();
        let mut rows = replace(&mut self.rows, Vec::new(alloc));
        drop(replace(&mut self.marks, Vec::new(alloc)));
        let given = others.append(&mut rows);
        drop(rows);
        given?;
        Ok(())
    }

    /// Takes the rows from a place on off and gives them.
    ///
    /// # Errors
    ///
    /// `NoMemory` where memory is refused; nothing has changed then.
    pub fn split_off(&mut self, at: usize) -> Result<MarkedRows, NoMemory>
        requires { at ≤ length self.old }
        ensures front { OnOk result (self.new ≡ take at self.old) }
        ensures behind { IfOk result (λ behind. behind ≡ drop at self.old) }
        ensures err { OnErr result (self.new ≡ self.old) }
    {
        let (_, behind) = self.marks.as_slice().split_at(at);
        let marks = copy(*self.marks.allocator(), behind)?;
        let rows = self.rows.split_off(at)?;
        self.rows.shrink_to_fit();
        self.marks.truncate(at);
        self.marks.shrink_to_fit();
        let first = first_of(marks.as_slice());
        Ok(MarkedRows { rows, marks, first })
    }

    /// Takes the rows of a range away that don't pass a test, and gives the test.
    pub fn retain_range<P: FnMut(&Row) -> bool>(&mut self, from: usize, to: usize, stays: P) -> P
        requires callable { P.IsAlwaysCallable stays }
        requires order { from ≤ to }
        requires within { to ≤ length self.old }
        ensures callable { P.IsAlwaysCallable result }
        ensures retained { (p : List Cell → Bool) → ComputesKey P.FnMut p stays → ComputesKey P.FnMut p result × (self.new ≡ retained p from to self.old) }
        ensures fewer { length self.new ≤ length self.old }
    {
        let rows = self.rows.as_mut_slice();
        let (kept, stays) = keep_in(rows, self.marks.as_mut_slice(), from, to, stays);
        cut_out(&mut self.rows, from + kept, to);
        cut_out(&mut self.marks, from + kept, to);
        self.first = first_of(self.marks.as_slice());
        stays
    }

    /// Takes the rows of a range away that aren't told to stay.
    pub fn retain_told(&mut self, from: usize, to: usize, stays: &[bool])
        requires order { from ≤ to }
        requires within { to ≤ length self.old }
        requires each { length stays.now ≡ to - from }
        ensures retained { (p : List Cell → Bool) → stays.now ≡ map p (take (to - from) (drop from self.old)) → self.new ≡ retained p from to self.old }
        ensures fewer { length self.new ≤ length self.old }
    {
        let rows = self.rows.as_mut_slice();
        let kept = keep_told_in(rows, self.marks.as_mut_slice(), from, to, stays);
        cut_out(&mut self.rows, from + kept, to);
        cut_out(&mut self.marks, from + kept, to);
        self.first = first_of(self.marks.as_slice());
    }

    /// Exchanges the rows for as many others, from a place on among these.
    pub fn exchange(&mut self, others: &mut [Row], start: usize)
        requires { start + length self.old ≤ length others.old }
        ensures held { self.new ≡ take (length self.old) (drop start others.old) }
        ensures given { others.new ≡ take start others.old ++ (self.old ++ drop (length self.old) (drop start others.old)) }
    {
        let end = start + self.rows.len();
        self.rows
            .as_mut_slice()
            .swap_with_slice(&mut others[start..end]);
        set_marks(self.marks.as_mut_slice(), self.rows.as_slice());
        self.first = first_of(self.marks.as_slice());
    }
}
