//! What was decided of the rests of a plan. A rest depends on the rows taken only through the values that its atoms
//! share with them, so it is remembered by these, once many rows were looked at.

ghost use Rattle.std.specs.Prelude.{◌≡◌, ◌⊎◌, ◌++◌, ◌∷◌, Bool, IsTrue, IfSome, List, Some, None, [], map, pos, if◌then◌else◌};
ghost use Rattle.std.specs.BTreeMap.{get};
ghost use Rattle.cqa_value.specs.declared.value.Value.{Value as Cell};
ghost use Rattle.cqa_value.specs.declared.value.Value.TheVariants.{Int};
ghost use Rattle.cqa_value.specs.Values.{row_cmp};
ghost use Rattle.plan_rows.specs.Taking.{placed, taken_value};
ghost use Rattle.plan_rows.specs.Underway.{IsMemoKey};

use crate::course::{rests_to_keep, turns_before_memo};
use crate::setting::Setting;
use crate::settled::are_settled;
use crate::steps::Rest;
use crate::taken_rows::{Taken, answer_of};
use cqa_model::ColRef;
use cqa_value::{MOST_VALUES, Row, Value};
use std::alloc::Global;
use std::collections::BTreeMap;

/// For how many candidates a plan is decided with one memo.
#[derive(Clone, Copy, PartialEq, Eq)]
pub enum Candidates {
    One,
    Many,
}

/// Whether rests of a plan hold, by their keys; nothing is kept before `turns` rows were looked at, and no more than `most`
/// rests at a time.
#[derive(Drop)]
pub struct Memo {
    turns: u64,
    most: usize,
    candidates: Candidates,
    known: BTreeMap<Row, bool>,
}

/// Adds a value to a key. Says whether it was added.
fn add_value(key: &mut Row, value: Value) -> bool
    ensures { IsTrue result → key.new ≡ key.old ++ value ∷ [] }
{
    if key.len() as usize >= MOST_VALUES {
        drop(value);
        return false;
    }
    match key.push(value) {
        Ok(()) => true,
        Err(_) => false,
    }
}

/// Adds the values of a row to a key. Says whether they were added.
fn add_row(alloc: Global, key: &mut Row, row: &Row) -> bool
    ensures { IsTrue result → key.new ≡ key.old ++ row.now }
{
    for value in row.as_slice() {
        let Ok(value) = value.copy(alloc) else {
            return false;
        };
        if !add_value(key, value) {
            return false;
        }
    }
    true
}

/// The key of so many atoms that are left, of rows taken in some columns, and of a candidate unless the answer is settled.
/// `None` where memory is refused or it would be too long.
fn memo_key(
    alloc: Global,
    count: usize,
    taken: &Taken<'_>,
    columns: &[ColRef],
    settled: bool,
    row: &Row,
) -> Option<Row>
    ensures { IfSome result (λ key. key ≡ Int (pos count) ∷ map (taken_value (placed taken.now)) columns.now ++ (if settled then [] else row.now)) }
{
    if columns.len() >= MOST_VALUES || count >= MOST_VALUES {
        return None;
    }
    let Ok(shared) = answer_of(alloc, taken, columns) else {
        return None;
    };
    let mut key = Row::new(alloc);
    let added = add_value(&mut key, Value::Int(count as i64))
        && add_row(alloc, &mut key, &shared)
        && (settled || add_row(alloc, &mut key, row));
    drop(shared);
    if added {
        return Some(key);
    }
    drop(key);
    None
}

impl Memo {
    /// An empty memo for a plan over a database: nothing is kept before four times as many rows were tried as the query's
    /// tables have, and no more rests at a time than these have rows, or 1,024.
    pub fn over(setting: &Setting<'_, '_>, candidates: Candidates) -> Memo
        ensures { (key : List Cell) → get row_cmp result.known key ≡ None }
    {
        Memo {
            turns: turns_before_memo(setting),
            most: rests_to_keep(setting),
            candidates,
            known: BTreeMap::new(setting.alloc),
        }
    }

    /// Counts a row that is looked at.
    pub fn turn(&mut self)
        ensures { self.new.known ≡ self.old.known }
    {
        self.turns = self.turns.saturating_sub(1);
    }

    /// By what it is remembered whether a rest of a plan holds; `None` where there is no key, and before the turns are used
    /// up, unless the rest depends neither on the rows taken nor on a candidate, if there are many.
    pub fn key(&self, rest: &Rest<'_>, row: &Row) -> Option<Row>
        ensures { IfSome result (IsMemoKey rest.now.course.now (placed rest.now.taken.now) rest.now.plan.now row.now) }
    {
        let course = rest.course;
        let plan = rest.plan;
        let place = course.order.len() - plan.len();
        if place >= course.shared.len() {
            return None;
        }
        let columns = course.shared[place].as_slice();
        if self.turns > 0 && !columns.is_empty() {
            return None;
        }
        let settled = are_settled(course.setting.bound.query, plan);
        if self.turns > 0 && !settled && self.candidates == Candidates::Many {
            return None;
        }
        memo_key(
            course.setting.alloc,
            plan.len(),
            rest.taken,
            columns,
            settled,
            row,
        )
    }

    /// What is remembered under a key.
    pub fn told(&self, key: &Row) -> Option<bool>
        ensures { result ≡ get row_cmp self.now.known key.now }
    {
        self.known.get(key).copied()
    }

    /// Forgets what is remembered where it is as much as may be.
    fn make_room(&mut self)
        ensures { (k : List Cell) (b : Bool) → get row_cmp self.new.known k ≡ Some b → get row_cmp self.old.known k ≡ Some b }
    {
        if self.known.len() >= self.most {
            self.known.clear();
        }
    }

    /// Remembers what was decided under a key, if memory is granted. Where as many rests are remembered as may be, all these are
    /// forgotten first.
    pub fn keep(&mut self, key: Row, held: bool)
        ensures { (k : List Cell) (b : Bool) → get row_cmp self.new.known k ≡ Some b → (get row_cmp self.old.known k ≡ Some b) ⊎ ((k ≡ key) × (b ≡ held)) }
    {
        self.make_room();
        match self.known.insert(key, held) {
            Ok(_) => {}
            Err(_) => {}
        }
    }
}
