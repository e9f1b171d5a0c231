//! What is learnt from a conflict: the clause of the first unique implication point (Marques-Silva and Sakallah,
//! 1996; Moskewicz and others, 2001), and the hints that show that it follows.

ghost use Rattle.std.specs.Prelude.{◌≡◌, ◌<◌, ◌≤◌, ◌+◌, List, length, OnOk, IfOk, true, reverse, [], pos, ◌++◌, ◌∷◌};
ghost use Rattle.cnf_form.specs.declared.formula.Lit.{Lit as LitValue};
ghost use Rattle.cnf_form.specs.Literals.{literals};
ghost use Rattle.search_trail.specs.Trail.{At, held, AllInRange};
ghost use Rattle.search_trail.specs.Analysis.{AreForcedFrom, AreMarks, AtMostSeen, IsForcedAt, IsLearntClause, AllSeen, NoneSeen, ChainPasses};
ghost use Rattle.search_trail.specs.Marks.{IsVarSeen, AllClear, AllMet};
ghost use Rattle.search_trail.specs.Walks.{AreMoreMarks, IsConflictIn, IsWalkedTo};

use crate::implications::Implications;
use crate::seen::all_clear;
use crate::trail::{lit_at, literals_at};
use cnf_form::Lit;
use cqa_value::NoMemory;
use std::alloc::Global;

/// What is learnt from a conflict: the literals of a clause, and its hints.
#[derive(Drop)]
pub struct LearntClause {
    pub lits: Vec<Lit>,
    pub hints: Vec<i64>,
    /// The literal that the clause forces after the jump back.
    pub asserted: Lit,
    /// How much of the trail denies the others.
    pub end: usize,
    /// The marks that were made, and the variables that have them.
    pub seen: Vec<bool>,
    pub met: Vec<u32>,
}

/// The variables that an analysis marks.
#[derive(Drop)]
pub struct SeenMarks {
    pub seen: Vec<bool>,
    /// Those that are marked.
    pub met: Vec<u32>,
    /// How many of those on the conflict's level are still to be walked over.
    pub left: usize,
}

/// No variable is marked yet.
fn no_marks(alloc: Global, seen: Vec<bool>) -> SeenMarks
    requires { AllClear seen.items }
    ensures marks { AreMarks (length seen.items) result }
    ensures clear { AllClear result.seen.items }
{
    SeenMarks {
        seen,
        met: Vec::new(alloc),
        left: 0,
    }
}

/// Puts a literal behind the others.
pub(crate) fn push_lit(lits: &mut Vec<Lit>, lit: Lit) -> Result<(), NoMemory>
    ensures { OnOk result (lits.new.items ≡ lits.old.items ++ lit ∷ []) }
{
    lits.push(lit)?;
    Ok(())
}

impl Implications<'_> {
    /// Marks a variable, and counts it if it stands on the level.
    fn mark_var(&self, marks: &mut SeenMarks, var: u32) -> Result<(), NoMemory>
        requires range { var < length self.now.places.now }
        requires marks { AreMarks (length self.now.places.now) marks.old }
        ensures more { OnOk result (AreMoreMarks self.now marks.old marks.new) }
        ensures seen { OnOk result (IsVarSeen marks.new.seen.items var) }
    {
        if marks.seen[var as usize] {
            return Ok(());
        }
        marks.seen[var as usize] = true;
        marks.met.push(var)?;
        if let Some(place) = self.places[var as usize]
            && place >= self.start
        {
            marks.left += 1;
        }
        Ok(())
    }

    /// Marks the variables of a clause.
    fn mark_all(&self, marks: &mut SeenMarks, clause: &[Lit]) -> Result<(), NoMemory>
        requires range { AllInRange clause.now (length self.now.places.now) }
        requires marks { AreMarks (length self.now.places.now) marks.old }
        ensures more { OnOk result (AreMoreMarks self.now marks.old marks.new) }
        ensures seen { OnOk result (AllSeen marks.new.seen.items clause.now) }
    {
        for lit in clause {
            self.mark_var(marks, lit.var)?;
        }
        Ok(())
    }

    /// Marks the variables of the clause at an index, and makes it the next hint.
    pub(crate) fn cite(
        &self,
        index: usize,
        marks: &mut SeenMarks,
        hints: &mut Vec<i64>,
    ) -> Result<(), NoMemory>
        requires index { index < length self.now.clauses.now }
        requires marks { AreMarks (length self.now.places.now) marks.old }
        ensures more { OnOk result (AreMoreMarks self.now marks.old marks.new) }
        ensures seen { OnOk result ((c : List LitValue) → At (literals self.now.clauses.now) index c → AllSeen marks.new.seen.items c) }
        ensures hint { OnOk result (hints.new.items ≡ hints.old.items ++ pos (index + 1) ∷ []) }
    {
        self.mark_all(marks, literals_at(self.clauses, index))?;
        hints.push(index as i64 + 1)?;
        Ok(())
    }

    /// Whether the literal at a place is marked, and no other from the level's start up to it is.
    fn is_last(&self, marks: &SeenMarks, at: usize) -> bool
        requires at { at < length self.now.trail.now }
        requires after { self.now.start ≤ at }
        requires marks { AreMarks (length self.now.places.now) marks.now }
        requires few { AtMostSeen (held self.now.trail.now) self.now.start (at + 1) marks.now.seen.items marks.now.left }
        ensures { result ≡ true → NoneSeen (held self.now.trail.now) self.now.start at marks.now.seen.items }
    {
        marks.left <= 1 && marks.seen[self.trail[at].lit.var as usize]
    }

    /// Takes the entry at a place for its reason, if it is marked.
    fn resolve(
        &self,
        at: usize,
        marks: &mut SeenMarks,
        hints: &mut Vec<i64>,
    ) -> Result<(), NoMemory>
        requires at { at < length self.now.trail.now }
        requires after { self.now.start ≤ at }
        requires forced { IsForcedAt self.now.trail.now at }
        requires walked { IsWalkedTo self.now (at + 1) marks.old hints.old.items }
        ensures { OnOk result (IsWalkedTo self.now at marks.new hints.new.items) }
    {
        let entry = self.trail[at];
        if !marks.seen[entry.lit.var as usize] {
            return Ok(());
        }
        marks.left -= 1;
        if let Some(reason) = entry.reason {
            self.cite(reason, marks, hints)?;
        }
        Ok(())
    }

    /// Walks back from a conflict to the first unique implication point, by marks that are clear. Gives its place, and puts the
    /// hints of what it walks over in the list.
    fn walk_to_point(
        &self,
        conflict: usize,
        marks: &mut SeenMarks,
        hints: &mut Vec<i64>,
    ) -> Result<usize, NoMemory>
        requires level { self.now.start < length self.now.trail.now }
        requires conflict { IsConflictIn self.now conflict }
        requires marks { AreMarks (length self.now.places.now) marks.old }
        requires clear { AllClear marks.old.seen.items }
        requires none { hints.old.items ≡ [] }
        ensures after { IfOk result (λ at. self.now.start ≤ at) }
        ensures within { IfOk result (λ at. at < length self.now.trail.now) }
        ensures last { IfOk result (λ at. NoneSeen (held self.now.trail.now) self.now.start at marks.new.seen.items) }
        ensures walked { IfOk result (λ at. IsWalkedTo self.now (at + 1) marks.new hints.new.items) }
    {
        self.cite(conflict, marks, hints)?;
        let mut at = self.trail.len() - 1;
        while at > self.start && !self.is_last(marks, at) {
            self.resolve(at, marks, hints)?;
            at -= 1;
        }
        Ok(at)
    }

    /// Walks back from a conflict to the first unique implication point, by marks that are clear, and then over what stands
    /// before the level. Puts the literals of the clause and its hints in the lists, and gives the literal that is asserted,
    /// and how much of the trail denies the others.
    fn walk_back(
        &self,
        conflict: usize,
        marks: &mut SeenMarks,
        lits: &mut Vec<Lit>,
        hints: &mut Vec<i64>,
    ) -> Result<(Lit, usize), NoMemory>
        requires level { self.now.start < length self.now.trail.now }
        requires conflict { IsConflictIn self.now conflict }
        requires marks { AreMarks (length self.now.places.now) marks.old }
        requires clear { AllClear marks.old.seen.items }
        requires no_lits { lits.old.items ≡ [] }
        requires no_hints { hints.old.items ≡ [] }
        ensures learnt { IfOk result (λ r. IsLearntClause (literals self.now.clauses.now) (held self.now.trail.now) self.now.start lits.new.items hints.new.items r.0 r.1) }
        ensures met { OnOk result (AllMet marks.new.seen.items marks.new.met.items) }
    {
        let at = self.walk_to_point(conflict, marks, hints)?;
        self.shorten(marks, lits, hints)?;
        let end = self.end_of(lits.as_slice());
        let asserted = lit_at(self.trail, at).opposite();
        push_lit(lits, asserted)?;
        hints.reverse();
        Ok((asserted, end))
    }

    /// Learns a clause from a conflict, a clause that the trail makes false. The marks are to be clear.
    pub fn analyze(
        &self,
        alloc: Global,
        conflict: usize,
        seen: Vec<bool>,
    ) -> Result<LearntClause, NoMemory>
        requires level { self.now.start < length self.now.trail.now }
        requires conflict { IsConflictIn self.now conflict }
        requires clear { AllClear seen.items }
        requires len { length seen.items ≡ length self.now.places.now }
        ensures learnt { IfOk result (λ learnt. IsLearntClause (literals self.now.clauses.now) (held self.now.trail.now) self.now.start learnt.lits.items learnt.hints.items learnt.asserted learnt.end) }
        ensures met { IfOk result (λ learnt. AllMet learnt.seen.items learnt.met.items) }
    {
        let mut marks = no_marks(alloc, seen);
        let mut lits = Vec::new(alloc);
        let mut hints = Vec::new(alloc);
        match self.walk_back(conflict, &mut marks, &mut lits, &mut hints) {
            Ok((asserted, end)) => Ok(LearntClause {
                lits,
                hints,
                asserted,
                end,
                seen: marks.seen,
                met: marks.met,
            }),
            Err(refused) => {
                drop(marks);
                drop(lits);
                drop(hints);
                Err(refused)
            }
        }
    }

    /// The hints of the empty clause, where a clause is false and no decision stands, by marks that are clear.
    fn walk_to_start(
        &self,
        alloc: Global,
        conflict: usize,
        marks: &mut SeenMarks,
    ) -> Result<Vec<i64>, NoMemory>
        requires first { self.now.start ≡ 0 }
        requires forced { AreForcedFrom self.now.trail.now 0 }
        requires conflict { IsConflictIn self.now conflict }
        requires marks { AreMarks (length self.now.places.now) marks.old }
        requires clear { AllClear marks.old.seen.items }
        ensures { IfOk result (λ hints. ChainPasses (literals self.now.clauses.now) [] hints.items) }
    {
        let mut hints = Vec::new(alloc);
        self.cite(conflict, marks, &mut hints)?;
        let mut at = self.trail.len();
        while at > 0 {
            at -= 1;
            self.resolve(at, marks, &mut hints)?;
        }
        hints.reverse();
        Ok(hints)
    }

    /// The hints of the empty clause, where a clause is false and no decision stands.
    pub fn refute(&self, alloc: Global, conflict: usize) -> Result<Vec<i64>, NoMemory>
        requires first { self.now.start ≡ 0 }
        requires forced { AreForcedFrom self.now.trail.now 0 }
        requires conflict { IsConflictIn self.now conflict }
        ensures { IfOk result (λ hints. ChainPasses (literals self.now.clauses.now) [] hints.items) }
    {
        let mut marks = no_marks(alloc, all_clear(alloc, self.places.len())?);
        let hints = self.walk_to_start(alloc, conflict, &mut marks);
        drop(marks);
        hints
    }
}
