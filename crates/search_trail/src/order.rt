//! The order of decisions: first the variable that conflicts met most of late, with the value that it last had (Eén and
//! Sörensson, 2003; Pipatsrisawat and Darwiche, 2007).

ghost use Rattle.std.specs.Prelude.{◌≡◌, ◌<◌, ◌≤◌, ◌^◌, length, true};
ghost use Rattle.search_trail.specs.Open.{IsUnplaced, NextIs};

use cnf_form::Lit;
use cqa_value::NoMemory;
use std::alloc::Global;

/// What a conflict adds to a variable's activity at first.
const FIRST_STEP: u64 = 1000;
/// Beyond it all activities are scaled down.
const LARGE_STEP: u64 = 1 << 50;

const SCALE: u64 = 1 << 40;

/// What is known of a variable.
#[derive(Clone, Copy)]
struct Standing {
    activity: u64,
    /// Its place in the heap.
    place: Option<usize>,
    /// The value that it last had.
    positive: bool,
}

/// The variables, a heap of those that may be open, by their activity.
#[derive(Drop)]
pub struct Order {
    standings: Vec<Standing>,
    /// The first `count` are the heap.
    heap: Vec<u32>,
    count: usize,
    /// What a conflict adds to the activity of a variable that it met.
    step: u64,
}

/// Whether a variable has no value.
fn is_open(places: &[Option<usize>], var: u32) -> bool
    ensures { result ≡ true → IsUnplaced places.now var }
{
    var >= 1 && (var as usize) < places.len() && places[var as usize].is_none()
}

/// The first variable that has no value.
pub fn first_open(places: &[Option<usize>]) -> Option<u32>
    requires small { length places.now ≤ 2 ^ 32 }
    ensures { NextIs places.now result }
{
    for var in 1..places.len() {
        if places[var].is_none() {
            return Some(var as u32);
        }
    }
    None
}

impl Order {
    /// An order of variables from 1 to a number, none of which was met.
    pub fn new(alloc: Global, vars: u32) -> Result<Order, NoMemory> {
        let mut standings = Vec::with_capacity(alloc, vars as usize + 1)?;
        let mut heap = Vec::with_capacity(alloc, vars as usize)?;
        standings.push(Standing {
            activity: 0,
            place: None,
            positive: false,
        })?;
        for place in 0..vars {
            heap.push(place + 1)?;
            standings.push(Standing {
                activity: 0,
                place: Some(place as usize),
                positive: false,
            })?;
        }
        Ok(Order {
            standings,
            heap,
            count: vars as usize,
            step: FIRST_STEP,
        })
    }

    /// The value that a variable last had; false at first.
    pub fn value(&self, var: u32) -> bool {
        self.standings
            .get(var as usize)
            .is_some_and(|standing| standing.positive)
    }

    /// An open variable, the most active one of the heap; none where all variables have values.
    pub fn next(&mut self, places: &[Option<usize>]) -> Option<u32>
        requires small { length places.now ≤ 2 ^ 32 }
        ensures { NextIs places.now result }
    {
        for _entry in 0..self.count {
            if let Some(var) = self.pop()
                && is_open(places, var)
            {
                return Some(var);
            }
        }
        first_open(places)
    }

    /// Keeps the value of a variable that loses it, and has it decided again.
    pub fn put_back(&mut self, lit: Lit) {
        if let Some(standing) = self.standings.get_mut(lit.var as usize) {
            standing.positive = lit.positive;
            if standing.place.is_none() {
                self.push(lit.var);
            }
        }
    }

    /// Raises the activity of the variables that a conflict met.
    pub fn raise(&mut self, met: &[u32]) {
        for var in met {
            self.raise_one(*var);
        }
        self.step = self.step.saturating_add(self.step / 100);
        if self.step > LARGE_STEP {
            self.scale_down();
        }
    }

    fn raise_one(&mut self, var: u32) {
        if let Some(standing) = self.standings.get_mut(var as usize) {
            standing.activity = standing.activity.saturating_add(self.step);
            if let Some(place) = standing.place {
                self.sift_up(place);
            }
        }
    }

    fn scale_down(&mut self) {
        for standing in self.standings.iter_mut() {
            standing.activity /= SCALE;
        }
        self.step /= SCALE;
    }

    /// Adds a variable to the heap.
    fn push(&mut self, var: u32) {
        if self.count < self.heap.len() {
            let place = self.count;
            self.count += 1;
            self.put_at(place, var);
            self.sift_up(place);
        }
    }

    /// Takes the most active variable out of the heap.
    fn pop(&mut self) -> Option<u32> {
        if self.count == 0 {
            return None;
        }
        self.count -= 1;
        self.swap(0, self.count);
        self.sift_down();
        let var = *self.heap.get(self.count)?;
        if let Some(standing) = self.standings.get_mut(var as usize) {
            standing.place = None;
        }
        Some(var)
    }

    /// Moves a variable up the heap, past those that are less active.
    fn sift_up(&mut self, from: usize) {
        let mut place = from;
        while place > 0 {
            let parent = (place - 1) / 2;
            if !self.is_before(place, parent) {
                return;
            }
            self.swap(place, parent);
            place = parent;
        }
    }

    /// Moves the first variable down the heap, past those that are more active.
    fn sift_down(&mut self) {
        let len = self.count.min(self.heap.len());
        let mut place = 0usize;
        let mut left = 1usize;
        while left < len {
            let child = self.better_child(left, len);
            if !self.is_before(child, place) {
                return;
            }
            self.swap(place, child);
            place = child;
            left = 2 * child + 1;
        }
    }

    /// The more active of the places from `left` on that have one parent.
    fn better_child(&self, left: usize, len: usize) -> usize
        requires { left < len }
        ensures from { left ≤ result }
        ensures below { result < len }
    {
        if left + 1 < len && self.is_before(left + 1, left) {
            left + 1
        } else {
            left
        }
    }

    fn swap(&mut self, a: usize, b: usize) {
        if a < self.heap.len() && b < self.heap.len() {
            let first = self.heap[a];
            let second = self.heap[b];
            self.put_at(a, second);
            self.put_at(b, first);
        }
    }

    fn put_at(&mut self, place: usize, var: u32) {
        if let Some(entry) = self.heap.get_mut(place) {
            *entry = var;
        }
        if let Some(standing) = self.standings.get_mut(var as usize) {
            standing.place = Some(place);
        }
    }

    /// Whether the variable at one place of the heap is more active than that at another.
    fn is_before(&self, a: usize, b: usize) -> bool {
        self.activity_at(a) > self.activity_at(b)
    }

    fn activity_at(&self, place: usize) -> u64 {
        self.standing_at(place)
            .map_or(0, |standing| standing.activity)
    }

    fn standing_at(&self, place: usize) -> Option<&Standing> {
        self.standings.get(*self.heap.get(place)? as usize)
    }
}
