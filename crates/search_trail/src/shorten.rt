//! How a learnt clause is made shorter: a literal goes where those that stay imply it (Sörensson and Biere, 2009).

ghost use Rattle.std.specs.Prelude.{◌≡◌, ◌<◌, ◌+◌, length, IfSome, OnOk, reverse, [], ◌∷◌};
ghost use Rattle.cnf_form.specs.declared.formula.Lit.{Lit as LitValue};
ghost use Rattle.cnf_form.specs.Literals.{literals};
ghost use Rattle.search_trail.specs.Trail.{held};
ghost use Rattle.search_trail.specs.Analysis.{AreKeptLiterals, AreMarks, IsReasonAt, Works};

use crate::analysis::{SeenMarks, push_lit};
use crate::implications::Implications;
use crate::trail::literals_at;
use cnf_form::Lit;
use cqa_value::NoMemory;

/// How far a literal of a reason may be from marked ones that imply it.
const STEPS: u32 = 4;

/// How many reasons beside its own are looked at for a literal.
const LOOKS: u32 = 30;

impl Implications<'_> {
    /// Whether the variables of a reason beside its own are marked, or have reasons of which that is true in fewer steps. Each
    /// further reason is one of the looks that are left.
    fn is_implied(
        &self,
        marks: &SeenMarks,
        reason: usize,
        var: u32,
        steps: u32,
        looks: &mut u32,
    ) -> bool
        requires marks { AreMarks (length self.now.places.now) marks.now }
        requires reason { reason < length self.now.clauses.now }
    {
        for lit in literals_at(self.clauses, reason) {
            if lit.var != var && !marks.seen[lit.var as usize] {
                if steps == 0 || *looks == 0 {
                    return false;
                }
                *looks -= 1;
                match self.reason_of(lit.var) {
                    Some(next) if self.is_implied(marks, next, lit.var, steps - 1, looks) => {}
                    _ => return false,
                }
            }
        }
        true
    }

    /// The reason of the entry at a place, if marked variables imply it.
    fn implied_by(&self, at: usize, marks: &SeenMarks) -> Option<usize>
        requires at { at < length self.now.trail.now }
        requires marks { AreMarks (length self.now.places.now) marks.now }
        ensures { IfSome result (λ reason. IsReasonAt self.now.trail.now at reason) }
    {
        let entry = self.trail[at];
        let mut looks = LOOKS;
        if let Some(reason) = entry.reason
            && self.is_implied(marks, reason, entry.lit.var, STEPS, &mut looks)
        {
            return Some(reason);
        }
        None
    }

    /// Takes the entry at a place, if it is marked: its reason is a hint if marked variables imply it, and all of that are marked
    /// then; else its denied literal is kept.
    fn shorten_at(
        &self,
        at: usize,
        marks: &mut SeenMarks,
        lits: &mut Vec<Lit>,
        hints: &mut Vec<i64>,
    ) -> Result<(), NoMemory>
        requires at { at < self.now.start }
        requires marks { AreMarks (length self.now.places.now) marks.old }
        ensures marks { OnOk result (AreMarks (length self.now.places.now) marks.new) }
        ensures kept { OnOk result (AreKeptLiterals (held self.now.trail.now) self.now.start (at + 1) lits.old.items → AreKeptLiterals (held self.now.trail.now) self.now.start at lits.new.items) }
        ensures works { OnOk result ((u : LitValue) → Works (literals self.now.clauses.now) (held self.now.trail.now) marks.old.seen.items (u ∷ lits.old.items) (at + 1) (reverse hints.old.items)
            → Works (literals self.now.clauses.now) (held self.now.trail.now) marks.new.seen.items (u ∷ lits.new.items) at (reverse hints.new.items)) }
    {
        let lit = self.trail[at].lit;
        if !marks.seen[lit.var as usize] {
            return Ok(());
        }
        match self.implied_by(at, marks) {
            Some(reason) => self.cite(reason, marks, hints)?,
            None => push_lit(lits, lit.opposite())?,
        }
        Ok(())
    }

    /// Walks over the trail before the last level, by the marks of an analysis: collects the denied literals that the learnt
    /// clause needs, from the last one back, and the hints by which the other marked ones follow.
    pub(crate) fn shorten(
        &self,
        marks: &mut SeenMarks,
        lits: &mut Vec<Lit>,
        hints: &mut Vec<i64>,
    ) -> Result<(), NoMemory>
        requires marks { AreMarks (length self.now.places.now) marks.old }
        requires none { lits.old.items ≡ [] }
        ensures marks { OnOk result (AreMarks (length self.now.places.now) marks.new) }
        ensures kept { OnOk result (AreKeptLiterals (held self.now.trail.now) self.now.start 0 lits.new.items) }
        ensures works { OnOk result ((u : LitValue) → Works (literals self.now.clauses.now) (held self.now.trail.now) marks.old.seen.items (u ∷ []) self.now.start (reverse hints.old.items)
            → Works (literals self.now.clauses.now) (held self.now.trail.now) marks.new.seen.items (u ∷ lits.new.items) 0 (reverse hints.new.items)) }
    {
        let mut at = self.start;
        while at > 0 {
            at -= 1;
            self.shorten_at(at, marks, lits, hints)?;
        }
        Ok(())
    }
}
