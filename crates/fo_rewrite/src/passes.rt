//! An elimination order that is good for evaluation: the cheapest of a few.

ghost use Rattle.std.specs.Prelude.{◌↔◌, ◌<◌, All, IfOk, IfSome, IsNone, length};
ghost use Rattle.cqa_model.specs.Variables.{whole};
ghost use Rattle.cqa_model.specs.Graph.{HasCycle};
ghost use Rattle.cqa_model.specs.Plan.{IsEliminationOf, IsExact};
ghost use Rattle.key_closure.specs.Members.{AreSame, seen};
ghost use Rattle.fo_rewrite.specs.Starting.{StartsWhole};

use crate::attacked::{attacked_atoms, first_outside};
use crate::known::{Facts, Known};
use crate::linking::Joined;
use crate::planning::{Outset, eliminated, only_atom};
use crate::preference::Choice;
use cqa_model::Plan;
use cqa_value::NoMemory;
use key_closure::{AtomSet, Named};
use std::alloc::Global;

/// So many orders are made at most.
const MOST_PASSES: u32 = 4;

/// Rows are counted up to this many bits.
const MOST_BITS: i32 = 58;

/// What an order costs, less being better.
#[derive(Clone, Copy, PartialEq, Eq, PartialOrd, Ord)]
struct Cost {
    /// The steps whose atom later ones alone link to those before it.
    detours: u32,

    /// About how many rows are kept, those of each step added.
    rows: u64,
}

/// An order, and what it costs.
#[derive(Drop)]
struct Pass {
    plan: Plan,
    cost: Cost,
}

/// An elimination order of a query, whose variables have their names, that is good for evaluation: again and again an atom
/// that no atom attacks once those before it are taken, `None` exactly where the attacks have a cycle. Over each database
/// that the query fits, the order holds for a row exactly where the row is certain (Koutris and Wijsen, ACM TODS 2017).
///
/// `sizes` are the rows of each atom's table, none where it is missing. Atoms that joins link to those taken come before
/// others, those that joins link to an answer column before the rest, and then those with the fewest rows that agree with
/// what is known. Where the order has a step whose atom later ones alone link to those before it, orders that begin with
/// other atoms, which joins link alike to the answer, are made too, and the best is taken.
///
/// # Errors
///
/// `NoMemory` where memory is refused.
pub fn elimination_in<'a>(
    alloc: Global,
    named: &'a Named<'a>,
    sizes: &'a [u32],
) -> Result<Option<Plan>, NoMemory>
    requires { AreSame (whole named.now.query.now) (seen named.now.query.now named.now.view) }
    ensures order { IfOk result (λ found. IfSome found (λ plan. IsEliminationOf named.now.query.now plan.order)) }
    ensures cycle { IfOk result (λ found. IsNone found ↔ HasCycle named.now.query.now (whole named.now.query.now)) }
    ensures exact { IfOk result (λ found. IfSome found (λ plan. IsExact named.now.query.now plan.order)) }
{
    if named.query.atoms.len() == 1 {
        return only_atom(alloc, named.query);
    }
    let outset = Outset {
        named,
        attacked: attacked_atoms(named),
        facts: Facts::new(named.query, named.variables, sizes),
    };
    match eliminated(alloc, &outset, Choice::Preferred { first: None })? {
        Some(plan) => Ok(Some(cheapest(alloc, &outset, plan))),
        None => Ok(None),
    }
}

/// The cheapest of an order and a few that begin with other atoms, which are made until one has no
/// detour.
fn cheapest(alloc: Global, outset: &Outset<'_>, plan: Plan) -> Plan
    requires whole { StartsWhole outset.now }
    requires order { IsEliminationOf outset.now.named.now.query.now plan.order }
    ensures { IsEliminationOf outset.now.named.now.query.now result.order }
{
    // Only a third atom can link two others.
    if plan.order.len() < 3 {
        return plan;
    }
    let begun = plan.order.as_slice().first().copied();
    let facts = &outset.facts;
    let begins_inside = first_outside(&facts.inside, &outset.attacked).is_some();
    let cost = cost_of(outset, plan.order.as_slice());
    let mut best = Pass { plan, cost };
    let mut passes = 1;
    for atom in 0..outset.named.query.atoms.len() as u32 {
        let can_begin = !outset.attacked.has(atom) && facts.inside.has(atom) == begins_inside;
        if can_begin && begun != Some(atom) && passes < MOST_PASSES && best.cost.detours > 0 {
            begin_with(alloc, outset, atom, &mut best);
            passes += 1;
        }
    }
    let Pass { plan, .. } = best;
    plan
}

/// Takes the order that begins with an atom in place of another if it is cheaper. Where memory is refused, the other stays.
fn begin_with(alloc: Global, outset: &Outset<'_>, atom: u32, best: &mut Pass)
    requires whole { StartsWhole outset.now }
    requires order { IsEliminationOf outset.now.named.now.query.now best.old.plan.order }
    ensures { IsEliminationOf outset.now.named.now.query.now best.new.plan.order }
{
    match eliminated(alloc, outset, Choice::Preferred { first: Some(atom) }) {
        Ok(Some(plan)) => {
            let cost = cost_of(outset, plan.order.as_slice());
            if cost < best.cost {
                *best = Pass { plan, cost };
            } else {
                drop(plan);
            }
        }
        Ok(None) | Err(NoMemory) => {}
    }
}

/// What an order costs.
fn cost_of(outset: &Outset<'_>, order: &[u32]) -> Cost
    requires { All (λ F. F < length outset.now.named.now.query.now.atoms) order.now }
{
    let mut cost = Cost {
        detours: 0,
        rows: 0,
    };
    let mut taken = AtomSet::new();
    let mut bits: i32 = 0;
    for atom in order {
        let known = Known::new(outset.named, &outset.facts, &taken);
        if known.link(*atom) == Joined::Through {
            cost.detours = cost.detours.saturating_add(1);
        }
        bits = bits.saturating_add(known.row_bits(*atom));
        cost.rows = cost.rows.saturating_add(1 << bits.clamp(0, MOST_BITS));
        taken.insert_if(*atom, true);
    }
    cost
}
