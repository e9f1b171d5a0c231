//! What the trail makes of a clause.

ghost use Rattle.std.specs.Prelude.{◌≡◌, ◌<◌, ◌≢◌, length, Contains, MatchOption, true, false};
ghost use Rattle.cnf_form.specs.Literals.{Denied, OthersDenied, literals};
ghost use Rattle.search_trail.specs.Trail.{IsConsistent, held, AreTrailPlaces, AllInRange};
ghost use Rattle.cdcl.specs.Looks.{LookFinds, IsFreeLiteral, WatchesAre};

use cnf_form::{Lit, Truth};
use search_trail::{Entry, truth_of};

/// What a clause comes to that watches a false literal and another one.
#[derive(Clone, Copy)]
pub enum Found {
    /// The other watched literal is true.
    Holds,
    /// A further literal is not false.
    Free(Lit),
    /// The other watched literal is open, and all else is false.
    Forces,
    AllFalse,
}

/// What came of a visit to a clause that watches a literal which is false.
#[derive(Clone, Copy)]
pub enum Visit {
    /// It watches the literal still, and holds.
    Kept,
    /// It watches it no more.
    Dropped,
    /// All its literals are false.
    Conflict,
}

fn is_false(trail: &[Entry], places: &[Option<usize>], lit: Lit) -> bool
    requires consistent { IsConsistent (held trail.now) }
    requires places { AreTrailPlaces (held trail.now) places.now }
    requires range { lit.var < length places.now }
    ensures yes { result ≡ true → Denied (held trail.now) lit }
    ensures no { result ≡ false → Denied (held trail.now) lit → ⊥ }
{
    truth_of(trail, places, lit) == Truth::False
}

/// A literal of the clause beside the other one that is not false.
fn free_lit(trail: &[Entry], places: &[Option<usize>], clause: &[Lit], other: Lit) -> Option<Lit>
    requires consistent { IsConsistent (held trail.now) }
    requires places { AreTrailPlaces (held trail.now) places.now }
    requires range { AllInRange clause.now (length places.now) }
    ensures { MatchOption result (OthersDenied (held trail.now) clause.now other) (λ lit. IsFreeLiteral (held trail.now) clause.now other lit) }
{
    for lit in clause {
        if *lit != other && !is_false(trail, places, *lit) {
            return Some(*lit);
        }
    }
    None
}

/// What the trail makes of a clause that watches a false literal and another one.
#[tactic(auto, using(crate::proofs::TrailLemmas::all_denied))]
pub(crate) fn seek(trail: &[Entry], places: &[Option<usize>], clause: &[Lit], other: Lit) -> Found
    requires consistent { IsConsistent (held trail.now) }
    requires places { AreTrailPlaces (held trail.now) places.now }
    requires range { AllInRange clause.now (length places.now) }
    requires inside { Contains clause.now other }
    ensures { LookFinds (held trail.now) clause.now other result }
{
    match truth_of(trail, places, other) {
        Truth::True => Found::Holds,
        Truth::Open => match free_lit(trail, places, clause, other) {
            None => Found::Forces,
            Some(lit) => Found::Free(lit),
        },
        Truth::False => match free_lit(trail, places, clause, other) {
            None => Found::AllFalse,
            Some(lit) => Found::Free(lit),
        },
    }
}

/// What a clause can watch: two different literals, or as many as it has.
#[derive(Clone, Copy)]
pub enum Watches {
    None,
    One(Lit),
    Two(Lit, Lit),
}

/// A literal of the clause that isn't the first.
fn other_lit(clause: &[Lit], first: Lit) -> Option<Lit>
    ensures { MatchOption result ((m : Lit) → Contains clause.now m → m ≡ first) (λ lit. Contains clause.now lit × (first ≢ lit)) }
{
    for lit in clause {
        if first != *lit {
            return Some(*lit);
        }
    }
    None
}

/// The literals that a clause can watch.
pub(crate) fn watches_of(clause: &[Lit]) -> Watches
    ensures { WatchesAre clause.now result }
{
    if clause.is_empty() {
        return Watches::None;
    }
    let first = clause[0];
    match other_lit(clause, first) {
        None => Watches::One(first),
        Some(second) => Watches::Two(first, second),
    }
}
