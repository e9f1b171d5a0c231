//! The trail: the literals that are true, in the order in which they came, and where each variable stands on it.

ghost use Rattle.std.specs.Prelude.{◌≡◌, ◌<◌, ◌+◌, length, Contains, OnOk, true, false, take, ◌++◌, ◌∷◌, [], ◌-◌};
ghost use Rattle.cnf_form.specs.Literals.{Denied, literals};
ghost use Rattle.search_trail.specs.Trail.{IsUnassigned, At, held, AreTrailPlaces, ValueIs, AllInRange};

use crate::order::Order;
use cnf_form::{Clause, Lit, Truth};
use cqa_value::NoMemory;

/// A literal on the trail, with the clause that forced it.
#[derive(Clone, Copy)]
pub struct Entry {
    pub lit: Lit,
    pub reason: Option<usize>,
}

/// What the trail says of a literal.
pub fn truth_of(trail: &[Entry], places: &[Option<usize>], lit: Lit) -> Truth
    requires places { AreTrailPlaces (held trail.now) places.now }
    requires range { lit.var < length places.now }
    ensures yes { result ≡ Truth.True → Contains (held trail.now) lit }
    ensures no { result ≡ Truth.False → Denied (held trail.now) lit }
    ensures open { result ≡ Truth.Open → IsUnassigned (held trail.now) lit.var }
{
    match places[lit.var as usize] {
        None => Truth::Open,
        Some(place) => {
            if trail[place].lit.positive == lit.positive {
                Truth::True
            } else {
                Truth::False
            }
        }
    }
}

/// The value of a variable; false where it is open.
pub fn value_at(trail: &[Entry], places: &[Option<usize>], var: u32) -> bool
    requires places { AreTrailPlaces (held trail.now) places.now }
    requires range { var < length places.now }
    ensures { ValueIs (held trail.now) var result }
{
    match places[var as usize] {
        None => false,
        Some(place) => trail[place].lit.positive,
    }
}

/// The literal at a place of the trail.
pub fn lit_at(trail: &[Entry], at: usize) -> Lit
    requires { at < length trail.now }
    ensures { At (held trail.now) at result }
{
    trail[at].lit
}

/// The literals of the clause at an index.
pub fn literals_at(clauses: &[Clause], index: usize) -> &[Lit]
    requires { index < length clauses.now }
    ensures { At (literals clauses.now) index result.now }
{
    clauses[index].lits.as_slice()
}

/// Puts an open literal on the trail.
pub fn enqueue(
    trail: &mut Vec<Entry>,
    places: &mut Vec<Option<usize>>,
    entry: Entry,
) -> Result<(), NoMemory>
    requires places { AreTrailPlaces (held trail.old.items) places.old.items }
    requires range { entry.lit.var < length places.old.items }
    requires open { IsUnassigned (held trail.old.items) entry.lit.var }
    ensures trail { OnOk result (trail.new.items ≡ trail.old.items ++ entry ∷ []) }
    ensures places { OnOk result (AreTrailPlaces (held trail.new.items) places.new.items) }
    ensures len { length places.new.items ≡ length places.old.items }
{
    let place = trail.len();
    trail.push(entry)?;
    places[entry.lit.var as usize] = Some(place);
    Ok(())
}

/// Takes the last literal off the trail; its variable may be decided again.
fn take_off(trail: &mut Vec<Entry>, places: &mut Vec<Option<usize>>, order: &mut Order)
    requires places { AreTrailPlaces (held trail.old.items) places.old.items }
    requires range { AllInRange (held trail.old.items) (length places.old.items) }
    requires some { 0 < length trail.old.items }
    ensures trail { trail.new.items ≡ take (length trail.old.items - 1) trail.old.items }
    ensures places { AreTrailPlaces (held trail.new.items) places.new.items }
    ensures len { length places.new.items ≡ length places.old.items }
{
    if let Some(entry) = trail.pop() {
        places[entry.lit.var as usize] = None;
        order.put_back(entry.lit);
    }
}

/// Cuts the trail down to a length.
pub fn cut(trail: &mut Vec<Entry>, places: &mut Vec<Option<usize>>, order: &mut Order, len: usize)
    requires places { AreTrailPlaces (held trail.old.items) places.old.items }
    requires range { AllInRange (held trail.old.items) (length places.old.items) }
    ensures trail { trail.new.items ≡ take len trail.old.items }
    ensures places { AreTrailPlaces (held trail.new.items) places.new.items }
    ensures len { length places.new.items ≡ length places.old.items }
{
    while trail.len() > len {
        take_off(trail, places, order);
    }
}
