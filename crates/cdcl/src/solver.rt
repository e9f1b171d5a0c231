//! The solver: a search that learns from each conflict (Marques-Silva and Sakallah, 1996).

ghost use Rattle.std.specs.Prelude.{◌≡◌, ◌<◌, ◌≤◌, ◌+◌, length, List, Contains, OnOk, IfOk, replicate, [], ◌-◌, ◌^◌};
ghost use Rattle.cnf_form.specs.Literals.{literals};
ghost use Rattle.search_trail.specs.Trail.{held, ValueIs, AllLow, AreAllInRange};
ghost use Rattle.cdcl.specs.State.{IsSound};
ghost use Rattle.cdcl.specs.Looking.{IsSameFormula, IsReady, IsUnattached};
ghost use Rattle.cdcl.specs.Visits.{OpenVarIs, SearchIs, AgreesWith};
ghost use Rattle.cdcl.specs.Lines.{HasLearnt, VerdictIs};
ghost use Rattle.cdcl.specs.declared.solver.Solver.{Solver};

mod attaching;
mod learning;
mod levels;
mod propagation;

use crate::forget::thin_lists;
use crate::watch::{Pair, no_lists};
use cnf_form::{Clause, Cnf, Lit, Step};
use cqa_value::{Items, NoMemory};
use search_trail::order::{Order, first_open};
use search_trail::restart::Restarts;
use search_trail::usage::Usage;
use search_trail::{Entry, SeenBuffer, value_at};
use std::alloc::Global;

/// How a search ends.
#[derive(Clone, Copy, PartialEq, Eq)]
pub enum Verdict {
    Sat,
    Unsat,
    Spent,
}

/// Places of variables, none of which has a value.
fn no_places(alloc: Global, len: usize) -> Result<Vec<Option<usize>>, NoMemory>
    ensures { IfOk result (λ v. v.items ≡ replicate len None) }
{
    Ok(vec![in alloc; None; len]?)
}

#[derive(Drop)]
pub(crate) struct Solver {
    clauses: Vec<Clause>,
    trail: Vec<Entry>,
    places: Vec<Option<usize>>,
    /// The place of the trail at which each level starts.
    level_starts: Vec<usize>,
    /// The first place of the trail that was not looked at.
    head: usize,
    /// What each clause watches.
    pairs: Vec<Pair>,
    /// The clauses that watch each literal.
    lists: Vec<Items<usize>>,
    /// The clauses before this one are never forgotten.
    permanent: usize,
    usage: Usage,
    seen: SeenBuffer,
    order: Order,
    restarts: Restarts,
}

impl Solver {
    /// A solver of a formula's clauses, before any literal is true, that may forget learnt clauses from a place on.
    pub(crate) fn new(alloc: Global, cnf: &Cnf, permanent: usize) -> Result<Solver, NoMemory>
        requires range { AreAllInRange (literals cnf.now.clauses) (cnf.now.vars + 1) }
        requires low { (c : List Lit) → Contains (literals cnf.now.clauses) c → AllLow c }
        ensures new { IfOk result (λ s. IsUnattached s) }
        ensures clauses { IfOk result (λ s. literals s.clauses.items ≡ literals cnf.now.clauses) }
        ensures len { IfOk result (λ s. length s.places.items ≡ cnf.now.vars + 1) }
        ensures small { IfOk result (λ s. length s.places.items ≤ 2 ^ 32) }
        ensures permanent { IfOk result (λ s. s.permanent ≡ permanent) }
    {
        let places = no_places(alloc, cnf.vars as usize + 1)?;
        let order = Order::new(alloc, cnf.vars)?;
        let lists = no_lists(alloc, cnf.vars as usize + 1)?;
        let clauses = cnf.copy(alloc)?.clauses.into_vec();
        Ok(Solver {
            clauses,
            trail: Vec::new(alloc),
            places,
            level_starts: Vec::new(alloc),
            head: 0,
            pairs: Vec::new(alloc),
            lists,
            permanent,
            usage: Usage::new(alloc, permanent),
            seen: SeenBuffer::new(alloc),
            order,
            restarts: Restarts::new(),
        })
    }

    /// The value of a variable on the trail.
    fn value_of(&self, var: u32) -> bool
        requires sound { IsSound self.now }
        requires range { var < length self.now.places.items }
        ensures { ValueIs (held self.now.trail.items) var result }
    {
        value_at(self.trail.as_slice(), self.places.as_slice(), var)
    }

    /// The values of the variables from 1 on.
    pub(crate) fn values(&self, alloc: Global) -> Result<Vec<bool>, NoMemory>
        requires sound { IsSound self.now }
        requires some { 1 ≤ length self.now.places.items }
        requires small { length self.now.places.items ≤ 2 ^ 32 }
        ensures len { IfOk result (λ v. length v.items ≡ length self.now.places.items - 1) }
        ensures values { IfOk result (λ v. AgreesWith v.items (held self.now.trail.items)) }
    {
        let mut values = Vec::new(alloc);
        for var in 1..self.places.len() {
            values.push(self.value_of(var as u32))?;
        }
        Ok(values)
    }

    /// A variable with no value.
    fn open_var(&self) -> Option<u32>
        requires sound { IsSound self.now }
        requires small { length self.now.places.items ≤ 2 ^ 32 }
        ensures { OpenVarIs self.now result }
    {
        first_open(self.places.as_slice())
    }

    /// Has half of the learnt clauses watch nothing, those that were used least, where there are many.
    fn forget(&mut self, alloc: Global) -> Result<(), NoMemory>
        requires { IsReady self.old }
        ensures ready { OnOk result (IsReady self.new) }
        ensures same { IsSameFormula self.old self.new }
    {
        if self.usage.is_full() {
            let least = self.usage.median(alloc)?;
            thin_lists(alloc, &mut self.lists, self.permanent, &self.usage, least)?;
            self.usage.forget(least);
        }
        Ok(())
    }

    /// Leaves all levels, where a restart is due.
    fn restart(&mut self)
        requires { IsReady self.old }
        ensures ready { IsReady self.new }
        ensures same { IsSameFormula self.old self.new }
    {
        if self.restarts.is_due() {
            self.backjump(0);
        }
    }

    /// Decides until a clause is false, or every variable has a value.
    fn search(&mut self, alloc: Global) -> Result<Option<usize>, NoMemory>
        requires ready { IsReady self.old }
        requires small { length self.old.places.items ≤ 2 ^ 32 }
        ensures ready { OnOk result (IsReady self.new) }
        ensures same { IsSameFormula self.old self.new }
        ensures found { IfOk result (λ r. SearchIs self.new r) }
    {
        self.forget(alloc)?;
        self.restart();
        loop {
            if let Some(conflict) = self.propagate(alloc)? {
                return Ok(Some(conflict));
            }
            match self.order.next(self.places.as_slice()) {
                None => return Ok(None),
                Some(var) => self.decide(var)?,
            }
        }
    }

    /// Ends a search whose budget is used up: leaves all levels, and tells what propagation comes to.
    fn finish(&mut self, alloc: Global, log: &mut Vec<Step>) -> Result<Verdict, NoMemory>
        requires ready { IsReady self.old }
        requires small { length self.old.places.items ≤ 2 ^ 32 }
        ensures { (first : Solver) → HasLearnt first self.old log.old.items → length (literals first.clauses.items) ≤ first.permanent
            → IfOk result (λ verdict. VerdictIs first.permanent (literals first.clauses.items) (length first.places.items) (length log.old.items) self.new log.new.items verdict) }
    {
        self.backjump(0);
        match self.propagate(alloc)? {
            Some(conflict) => {
                self.end(alloc, conflict, log)?;
                Ok(Verdict::Unsat)
            }
            None => match self.open_var() {
                None => Ok(Verdict::Sat),
                Some(_) => Ok(Verdict::Spent),
            },
        }
    }

    /// Searches, and learns from each conflict, until the answer is known or the budget is used up.
    fn search_and_learn(
        &mut self,
        alloc: Global,
        budget: u32,
        log: &mut Vec<Step>,
    ) -> Result<Verdict, NoMemory>
        requires ready { IsReady self.old }
        requires permanent { length (literals self.old.clauses.items) ≤ self.old.permanent }
        requires small { length self.old.places.items ≤ 2 ^ 32 }
        requires log { log.old.items ≡ [] }
        ensures { IfOk result (λ verdict. VerdictIs self.old.permanent (literals self.old.clauses.items) (length self.old.places.items) budget self.new log.new.items verdict) }
    {
        for _round in 0..budget {
            match self.search(alloc)? {
                None => return Ok(Verdict::Sat),
                Some(conflict) => {
                    if self.level_starts.is_empty() {
                        self.end(alloc, conflict, log)?;
                        return Ok(Verdict::Unsat);
                    }
                    self.add_line(alloc, conflict, log)?;
                }
            }
        }
        self.finish(alloc, log)
    }

    /// Has all clauses watch their literals, and searches.
    pub(crate) fn run(
        &mut self,
        alloc: Global,
        budget: u32,
        log: &mut Vec<Step>,
    ) -> Result<Verdict, NoMemory>
        requires new { IsUnattached self.old }
        requires permanent { length (literals self.old.clauses.items) ≤ self.old.permanent }
        requires small { length self.old.places.items ≤ 2 ^ 32 }
        requires log { log.old.items ≡ [] }
        ensures { IfOk result (λ verdict. VerdictIs self.old.permanent (literals self.old.clauses.items) (length self.old.places.items) budget self.new log.new.items verdict) }
    {
        match self.attach_all()? {
            None => self.search_and_learn(alloc, budget, log),
            Some(conflict) => {
                self.end(alloc, conflict, log)?;
                Ok(Verdict::Unsat)
            }
        }
    }
}
