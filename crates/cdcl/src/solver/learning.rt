//! What is learnt from a conflict, and its line in the log.

ghost use Rattle.std.specs.Prelude.{◌≡◌, ◌<◌, ◌+◌, ℕ, length, Contains, OnOk, IfOk, take, ◌++◌, ◌∷◌, []};
ghost use Rattle.cnf_form.specs.Literals.{literals, opposite};
ghost use Rattle.cdcl.specs.Settled.{IsSettledClause};
ghost use Rattle.search_trail.specs.Trail.{At, held, AllInRange, AllLow};
ghost use Rattle.cdcl.specs.Looks.{IsForced};
ghost use Rattle.cdcl.specs.State.{IsSound, last_start};
ghost use Rattle.search_trail.specs.Marks.{AllClear, AllMet};
ghost use Rattle.cdcl.specs.Looking.{IsReady};
ghost use Rattle.cdcl.specs.Visits.{IsConflict, IsLearnt};
ghost use Rattle.cdcl.specs.Lines.{Adds, EndsLog, HasLearnt, IsLine, IsLineStep, added_lits};
ghost use Rattle.cdcl.specs.declared.solver.Solver.{Solver};

use super::Solver;
use cnf_form::{Clause, Lit, Step};
use cqa_value::{Items, NoMemory};
use search_trail::{Implications, LearntClause, lit_at};
use std::alloc::Global;

/// The step that adds a clause.
fn step_of(id: u64, lits: Vec<Lit>, hints: Vec<i64>) -> Step
    ensures { Adds result id lits.items hints.items }
{
    Step::Add {
        id,
        clause: Clause {
            lits: Items::from_vec(lits),
        },
        hints: Items::from_vec(hints),
    }
}

impl Solver {
    /// The trail with its clauses, for an analysis of a conflict.
    fn implications(&self) -> Implications<'_>
        requires { IsSound self.now }
        ensures clauses { result.clauses.now ≡ self.now.clauses.items }
        ensures trail { result.trail.now ≡ self.now.trail.items }
        ensures places { result.places.now ≡ self.now.places.items }
        ensures start { result.start ≡ last_start self.now.level_starts.items }
    {
        Implications {
            clauses: self.clauses.as_slice(),
            trail: self.trail.as_slice(),
            places: self.places.as_slice(),
            start: self.last_start(),
        }
    }

    /// What is learnt from a conflict above level 0, by marks that are clear.
    fn analyze(
        &self,
        alloc: Global,
        conflict: usize,
        seen: Vec<bool>,
    ) -> Result<LearntClause, NoMemory>
        requires sound { IsSound self.now }
        requires conflict { IsConflict self.now conflict }
        requires level { 0 < length self.now.level_starts.items }
        requires clear { AllClear seen.items }
        requires len { length seen.items ≡ length self.now.places.items }
        ensures learnt { IfOk result (λ learnt. IsLearnt self.now learnt) }
        ensures met { IfOk result (λ learnt. AllMet learnt.seen.items learnt.met.items) }
    {
        self.implications().analyze(alloc, conflict, seen)
    }

    /// Adds a learnt clause, and puts on the trail what it forces.
    fn add_learnt(&mut self, lits: Vec<Lit>, asserted: Lit, end: usize) -> Result<(), NoMemory>
        requires ready { IsReady self.old }
        requires range { AllInRange lits.items (length self.old.places.items) }
        requires low { AllLow lits.items }
        requires forced { IsForced (held self.old.trail.items) lits.items asserted }
        requires settled { (s : ℕ) → Contains self.old.level_starts.items s → IsSettledClause (take s (held self.old.trail.items)) lits.items }
        requires below { (s : ℕ) → Contains self.old.level_starts.items s → s < end }
        requires last { (k : ℕ) → end ≡ k + 1 → (m : Lit) × Contains lits.items m × At (held self.old.trail.items) k (opposite m) }
        ensures ready { OnOk result (IsReady self.new) }
        ensures added { OnOk result (literals self.new.clauses.items ≡ literals self.old.clauses.items ++ lits.items ∷ []) }
        ensures len { length self.new.places.items ≡ length self.old.places.items }
        ensures permanent { self.new.permanent ≡ self.old.permanent }
    {
        let index = self.clauses.len();
        self.clauses.push(Clause {
            lits: Items::from_vec(lits),
        })?;
        self.force(index, asserted)?;
        if end == 0 {
            self.attach_none(asserted)
        } else {
            let deepest = lit_at(self.trail.as_slice(), end - 1).opposite();
            self.attach(asserted, deepest)
        }
    }

    /// Jumps back as far as a learnt clause says, and adds the clause.
    fn jump_and_add(&mut self, alloc: Global, learnt: &LearntClause) -> Result<(), NoMemory>
        requires ready { IsReady self.old }
        requires learnt { IsLearnt self.old learnt.now }
        requires level { 0 < length self.old.level_starts.items }
        ensures ready { OnOk result (IsReady self.new) }
        ensures len { length self.new.places.items ≡ length self.old.places.items }
        ensures permanent { self.new.permanent ≡ self.old.permanent }
        ensures added { OnOk result (literals self.new.clauses.items ≡ literals self.old.clauses.items ++ learnt.now.lits.items ∷ []) }
        ensures line { OnOk result (IsLine self.old.permanent (literals self.old.clauses.items) (length self.old.places.items) learnt.now.lits.items learnt.now.hints.items) }
    {
        self.usage.push()?;
        let lits = Vec::from_slice(alloc, learnt.lits.as_slice())?;
        self.leave_level();
        self.backjump(learnt.end);
        self.add_learnt(lits, learnt.asserted, learnt.end)
    }

    /// Learns from a conflict above level 0, and jumps back.
    fn learn(&mut self, alloc: Global, conflict: usize) -> Result<Step, NoMemory>
        requires ready { IsReady self.old }
        requires conflict { IsConflict self.old conflict }
        requires level { 0 < length self.old.level_starts.items }
        ensures ready { OnOk result (IsReady self.new) }
        ensures len { length self.new.places.items ≡ length self.old.places.items }
        ensures permanent { self.new.permanent ≡ self.old.permanent }
        ensures added { IfOk result (λ step. literals self.new.clauses.items ≡ literals self.old.clauses.items ++ added_lits step ∷ []) }
        ensures line { IfOk result (λ step. IsLineStep self.old.permanent (literals self.old.clauses.items) (length self.old.places.items) step) }
    {
        let seen = self.seen.take(alloc, self.places.len())?;
        let learnt = self.analyze(alloc, conflict, seen)?;
        self.order.raise(learnt.met.as_slice());
        self.usage.raise(learnt.hints.as_slice());
        let id = self.clauses.len() as u64 + 1;
        let added = self.jump_and_add(alloc, &learnt);
        self.seen.put_back(learnt.seen, learnt.met.as_slice());
        match added {
            Ok(()) => Ok(step_of(id, learnt.lits, learnt.hints)),
            Err(refused) => {
                drop(learnt.lits);
                drop(learnt.hints);
                Err(refused)
            }
        }
    }

    /// Learns from a conflict above level 0, and puts the line in the log.
    pub(super) fn add_line(
        &mut self,
        alloc: Global,
        conflict: usize,
        log: &mut Vec<Step>,
    ) -> Result<(), NoMemory>
        requires ready { IsReady self.old }
        requires conflict { IsConflict self.old conflict }
        requires level { 0 < length self.old.level_starts.items }
        ensures ready { OnOk result (IsReady self.new) }
        ensures learnt { OnOk result ((first : Solver) → HasLearnt first self.old log.old.items → HasLearnt first self.new log.new.items) }
        ensures count { OnOk result (length log.new.items ≡ length log.old.items + 1) }
    {
        let step = self.learn(alloc, conflict)?;
        log.push(step)?;
        Ok(())
    }

    /// Ends the log with the empty clause, where a clause is false and no level has started.
    pub(super) fn end(
        &self,
        alloc: Global,
        conflict: usize,
        log: &mut Vec<Step>,
    ) -> Result<(), NoMemory>
        requires sound { IsSound self.now }
        requires conflict { IsConflict self.now conflict }
        requires level { length self.now.level_starts.items ≡ 0 }
        ensures { OnOk result (EndsLog (literals self.now.clauses.items) log.old.items log.new.items) }
    {
        let id = self.clauses.len() as u64 + 1;
        let hints = self.implications().refute(alloc, conflict)?;
        log.push(step_of(id, Vec::new(alloc), hints))?;
        Ok(())
    }
}
