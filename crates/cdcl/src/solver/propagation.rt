//! What the clauses force: the clauses that watch a literal are visited once it is false (Moskewicz and others, 2001).

ghost use Rattle.std.specs.Prelude.{◌≡◌, ◌≤◌, ℕ, length, List, Contains, OnOk, IfOk, ◌∷◌};
ghost use Rattle.cnf_form.specs.Literals.{literals, opposite};
ghost use Rattle.search_trail.specs.Trail.{At, held};
ghost use Rattle.cdcl.specs.State.{IsSound};
ghost use Rattle.cdcl.specs.Looking.{IsForcedIn, IsEnqueued, IsSameFormula, IsSameBeside, Stays, IsGrown, FoundIsAt, IsLookingAt, VisitIs, LookedIs, IsReady};
ghost use Rattle.cdcl.specs.Visits.{ConflictIs};

use super::Solver;
use crate::look::{Found, Visit, seek};
use crate::watch::{Pair, close_gap, code, other_of, push_index, put_list, take_list};
use cnf_form::Lit;
use cqa_value::NoMemory;
use search_trail::{Entry, enqueue, lit_at, literals_at};
use std::alloc::Global;

impl Solver {
    /// Puts on the trail what a clause forces.
    pub(super) fn force(&mut self, index: usize, lit: Lit) -> Result<(), NoMemory>
        requires sound { IsSound self.old }
        requires forced { IsForcedIn (literals self.old.clauses.items) (held self.old.trail.items) index lit }
        ensures sound { OnOk result (IsSound self.new) }
        ensures trail { OnOk result (IsEnqueued self.old.trail.items lit self.new.trail.items) }
        ensures same { IsSameBeside self.old self.new }
    {
        let entry = Entry {
            lit,
            reason: Some(index),
        };
        enqueue(&mut self.trail, &mut self.places, entry)?;
        Ok(())
    }

    /// What the clause at an index comes to that watches a false literal and another one.
    fn seek(&self, index: usize, other: Lit) -> Found
        requires sound { IsSound self.now }
        requires inside { (c : List Lit) × At (literals self.now.clauses.items) index c × Contains c other }
        ensures { FoundIsAt self.now index other result }
    {
        seek(
            self.trail.as_slice(),
            self.places.as_slice(),
            literals_at(self.clauses.as_slice(), index),
            other,
        )
    }

    /// Visits a clause of the list of a literal that has become false.
    fn visit(&mut self, index: usize, lit: Lit) -> Result<Visit, NoMemory>
        requires { (kept : List ℕ) × (rest : List ℕ) × IsLookingAt self.old lit kept (index ∷ rest) }
        ensures stays { Stays self.old self.new }
        ensures grows { OnOk result (IsGrown (held self.old.trail.items) (held self.new.trail.items)) }
        ensures visit { IfOk result (λ v. (kept rest : List ℕ) → IsLookingAt self.old lit kept (index ∷ rest) → VisitIs self.new lit kept rest index v) }
    {
        let Some(other) = other_of(self.pairs[index], lit) else {
            return Ok(Visit::Dropped);
        };
        match self.seek(index, other) {
            Found::Holds => Ok(Visit::Kept),
            Found::Free(new) => {
                self.pairs[index] = Pair {
                    first: other,
                    second: new,
                };
                push_index(&mut self.lists, code(new), index)?;
                Ok(Visit::Dropped)
            }
            Found::Forces => {
                self.force(index, other)?;
                Ok(Visit::Kept)
            }
            Found::AllFalse => Ok(Visit::Conflict),
        }
    }

    /// Visits the clauses that watch a literal which has become false, up to one whose literals all are.
    fn look_through(&mut self, alloc: Global, lit: Lit) -> Result<Option<usize>, NoMemory>
        requires ready { IsReady self.old }
        requires next { At (held self.old.trail.items) self.old.head (opposite lit) }
        ensures ready { OnOk result (IsReady self.new) }
        ensures stays { Stays self.old self.new }
        ensures grows { OnOk result (IsGrown (held self.old.trail.items) (held self.new.trail.items)) }
        ensures conflict { IfOk result (λ r. LookedIs self.new lit r) }
    {
        let mut list = take_list(alloc, &mut self.lists, code(lit));
        let mut kept = 0usize;
        for at in 0..list.len() {
            let index = list[at];
            match self.visit(index, lit)? {
                Visit::Dropped => {}
                Visit::Kept => {
                    list[kept] = index;
                    kept += 1;
                }
                Visit::Conflict => {
                    close_gap(&mut list, kept, at);
                    put_list(&mut self.lists, code(lit), list);
                    return Ok(Some(index));
                }
            }
        }
        list.truncate(kept);
        put_list(&mut self.lists, code(lit), list);
        Ok(None)
    }

    /// Puts on the trail what the clauses force, until nothing more is forced or a clause is false.
    pub(super) fn propagate(&mut self, alloc: Global) -> Result<Option<usize>, NoMemory>
        requires { IsReady self.old }
        ensures ready { OnOk result (IsReady self.new) }
        ensures same { IsSameFormula self.old self.new }
        ensures level_starts { self.new.level_starts ≡ self.old.level_starts }
        ensures grows { OnOk result (length self.old.trail.items ≤ length self.new.trail.items) }
        ensures conflict { IfOk result (λ r. ConflictIs self.new r) }
    {
        while self.head < self.trail.len() {
            let lit = lit_at(self.trail.as_slice(), self.head).opposite();
            match self.look_through(alloc, lit)? {
                None => self.head += 1,
                Some(conflict) => return Ok(Some(conflict)),
            }
        }
        Ok(None)
    }
}
