//! The levels of a search: each starts with a decision, and the last ones are left at a jump back.

ghost use Rattle.std.specs.Prelude.{◌≡◌, ◌<◌, ◌≤◌, ℕ, length, Contains, OnOk, take};
ghost use Rattle.search_trail.specs.Trail.{IsUnassigned, held};
ghost use Rattle.cdcl.specs.State.{last_start};
ghost use Rattle.cdcl.specs.Looking.{IsSameFormula, IsReady};
ghost use Rattle.cdcl.specs.Visits.{IsStill, LeavesLevel, IsPrefix};

use super::Solver;
use cnf_form::Lit;
use cqa_value::NoMemory;
use search_trail::{Entry, cut, enqueue};

impl Solver {
    /// Starts a level by a decision.
    pub(super) fn decide(&mut self, var: u32) -> Result<(), NoMemory>
        requires ready { IsReady self.old }
        requires still { IsStill self.old }
        requires whole { length self.old.trail.items ≤ self.old.head }
        requires low { 1 ≤ var }
        requires range { var < length self.old.places.items }
        requires open { IsUnassigned (held self.old.trail.items) var }
        ensures ready { OnOk result (IsReady self.new) }
        ensures same { IsSameFormula self.old self.new }
        ensures trail { OnOk result (length self.old.trail.items < length self.new.trail.items) }
    {
        let start = self.trail.len();
        self.level_starts.push(start)?;
        let lit = Lit {
            var,
            positive: self.order.value(var),
        };
        enqueue(
            &mut self.trail,
            &mut self.places,
            Entry { lit, reason: None },
        )?;
        Ok(())
    }

    /// Where the last level starts; 0 where none has.
    pub(super) fn last_start(&self) -> usize
        ensures { result ≡ last_start self.now.level_starts.items }
    {
        if self.level_starts.is_empty() {
            return 0;
        }
        self.level_starts[self.level_starts.len() - 1]
    }

    /// Leaves the last level.
    pub(super) fn leave_level(&mut self)
        requires ready { IsReady self.old }
        requires level { 0 < length self.old.level_starts.items }
        ensures ready { IsReady self.new }
        ensures same { IsSameFormula self.old self.new }
        ensures leave { LeavesLevel self.old self.new }
    {
        if let Some(start) = self.level_starts.pop() {
            cut(&mut self.trail, &mut self.places, &mut self.order, start);
            self.head = self.head.min(start);
        }
    }

    /// Leaves the levels that start at `end` or later.
    pub(super) fn backjump(&mut self, end: usize)
        requires ready { IsReady self.old }
        ensures ready { IsReady self.new }
        ensures same { IsSameFormula self.old self.new }
        ensures below { (s : ℕ) → Contains self.new.level_starts.items s → s < end }
        ensures kept { take end (held self.new.trail.items) ≡ take end (held self.old.trail.items) }
        ensures fewer { IsPrefix self.new.trail.items self.old.trail.items }
    {
        while !self.level_starts.is_empty()
            && self.level_starts[self.level_starts.len() - 1] >= end
        {
            self.leave_level();
        }
    }
}
