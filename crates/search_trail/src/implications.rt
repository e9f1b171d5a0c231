//! The implications of a trail: its literals, the clauses that forced them, and where each variable stands. An analysis of a
//! conflict goes back over them.

ghost use Rattle.std.specs.Prelude.{◌≤◌, ◌+◌, length};
ghost use Rattle.std.proofs.Props.{props};
ghost use Rattle.cnf_form.specs.Literals.{literals};
ghost use Rattle.search_trail.specs.Trail.{held, AreTrailPlaces, AllInRange, AreAllInRange};
ghost use Rattle.search_trail.specs.Analysis.{AreForcedFrom, AreReasons};

use crate::trail::Entry;
use cnf_form::{Clause, Lit};

/// A trail with its clauses: each entry that names a reason was forced by that clause, and so was each after the first of the
/// last level.
#[derive(Clone, Copy)]
pub struct Implications<'a> {
    pub clauses: &'a [Clause],
    pub trail: &'a [Entry],
    /// Where each variable stands on the trail.
    pub places: &'a [Option<usize>],
    /// Where the last level starts; 0 where none has.
    pub start: usize,
    pub ghost within: { start ≤ length trail.now },
    pub ghost placed: { AreTrailPlaces (held trail.now) places.now } by { Prim.hlevel props },
    pub ghost held_in: { AllInRange (held trail.now) (length places.now) } by { Prim.hlevel props },
    pub ghost clauses_in: { AreAllInRange (literals clauses.now) (length places.now) } by { Prim.hlevel props },
    pub ghost forced: { AreForcedFrom trail.now (start + 1) } by { Prim.hlevel props },
    pub ghost reasons: { ∥ AreReasons (literals clauses.now) trail.now ∥₁ },
}

impl Implications<'_> {
    ghost use Rattle.std.specs.Prelude.{◌<◌, ⊤, MatchOption};
    ghost use Rattle.cnf_form.specs.Literals.{AllDenied, HasVar};
    ghost use Rattle.search_trail.specs.Trail.{AfterIs, EndIs};

    /// The reason of a variable on the trail.
    pub(crate) fn reason_of(&self, var: u32) -> Option<usize>
        requires { var < length self.now.places.now }
        ensures { MatchOption result ⊤ (λ reason. reason < length self.now.clauses.now) }
    {
        self.trail[self.places[var as usize]?].reason
    }

    /// How much of the trail denies the literals.
    pub(crate) fn end_of(&self, lits: &[Lit]) -> usize
        requires { AllDenied (held self.now.trail.now) lits.now }
        ensures { EndIs (held self.now.trail.now) lits.now result }
    {
        let mut end = 0usize;
        for lit in lits {
            end = end.max(self.place_after(lit.var));
        }
        end
    }

    /// One more than the place of a variable that is on the trail.
    fn place_after(&self, var: u32) -> usize
        requires { HasVar (held self.now.trail.now) var }
        ensures { AfterIs (held self.now.trail.now) var result }
    {
        match self.places[var as usize] {
            None => 0,
            Some(place) => place + 1,
        }
    }
}
