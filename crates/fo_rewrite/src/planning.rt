//! The order in which the atoms of a query are taken.

ghost use Rattle.std.specs.Prelude.{◌≡◌, ◌↔◌, IfOk, IfSome, IsNone, length};
ghost use Rattle.cqa_model.specs.Variables.{whole};
ghost use Rattle.cqa_model.specs.Graph.{HasCycle};
ghost use Rattle.cqa_model.specs.Plan.{IsEliminationOf, IsPlanOf, IsExact};
ghost use Rattle.key_closure.specs.Members.{AreSame, seen};
ghost use Rattle.fo_rewrite.specs.Starting.{StartsWhole};
ghost use Rattle.fo_rewrite.specs.declared.preference.Choice.TheVariants.{First};

use crate::attacked::{attacked_after, attacked_atoms, next_atom};
use crate::known::Facts;
use crate::preference::Choice;
use cqa_model::{Plan, Query, variables};
use cqa_value::{Items, NoMemory};
use key_closure::{AtomSet, Named, View};
use std::alloc::Global;

/// A whole query, the atoms that are attacked at first, and what depends on the query alone.
#[derive(Clone, Copy)]
pub(crate) struct Outset<'a> {
    pub named: &'a Named<'a>,
    pub attacked: AtomSet,
    pub facts: Facts<'a>,
}

/// The plan of a query: again and again the first atom that no atom attacks once those before it are taken; `None` exactly
/// where the attacks have a cycle. Over each database that the query fits, the plan holds for a row exactly where the row is
/// certain (Koutris and Wijsen, ACM TODS 2017).
///
/// # Errors
///
/// `NoMemory` where memory is refused.
pub fn plan_of(alloc: Global, query: &Query) -> Result<Option<Plan>, NoMemory>
    ensures plan { IfOk result (λ found. IfSome found (λ plan. IsPlanOf query.now plan.order)) }
    ensures cycle { IfOk result (λ found. IsNone found ↔ HasCycle query.now (whole query.now)) }
    ensures exact { IfOk result (λ found. IfSome found (λ plan. IsExact query.now plan.order)) }
{
    let variables = variables(query);
    let named = Named {
        query,
        variables: &variables,
        view: View::whole(query),
    };
    plan_in(alloc, &named)
}

/// The plan of a query whose variables have their names.
///
/// # Errors
///
/// `NoMemory` where memory is refused.
pub fn plan_in<'a>(alloc: Global, named: &'a Named<'a>) -> Result<Option<Plan>, NoMemory>
    requires { AreSame (whole named.now.query.now) (seen named.now.query.now named.now.view) }
    ensures plan { IfOk result (λ found. IfSome found (λ plan. IsPlanOf named.now.query.now plan.order)) }
    ensures cycle { IfOk result (λ found. IsNone found ↔ HasCycle named.now.query.now (whole named.now.query.now)) }
    ensures exact { IfOk result (λ found. IfSome found (λ plan. IsExact named.now.query.now plan.order)) }
{
    if named.query.atoms.len() == 1 {
        return only_atom(alloc, named.query);
    }
    let outset = Outset {
        named,
        attacked: attacked_atoms(named),
        facts: Facts::new(named.query, named.variables, &[]),
    };
    eliminated(alloc, &outset, Choice::First)
}

/// The plan of a query of one atom: that atom, which no other attacks.
pub(crate) fn only_atom(alloc: Global, query: &Query) -> Result<Option<Plan>, NoMemory>
    requires { length query.now.atoms ≡ 1 }
    ensures plan { IfOk result (λ found. IfSome found (λ plan. IsPlanOf query.now plan.order)) }
    ensures order { IfOk result (λ found. IfSome found (λ plan. IsEliminationOf query.now plan.order)) }
    ensures cycle { IfOk result (λ found. IsNone found ↔ HasCycle query.now (whole query.now)) }
    ensures exact { IfOk result (λ found. IfSome found (λ plan. IsExact query.now plan.order)) }
{
    let mut order = Items::new(alloc);
    order.push(0)?;
    Ok(Some(Plan { order }))
}

/// The elimination order of a query that the choice of each next atom makes.
pub(crate) fn eliminated(
    alloc: Global,
    outset: &Outset<'_>,
    choice: Choice,
) -> Result<Option<Plan>, NoMemory>
    requires { StartsWhole outset.now }
    ensures plan { choice ≡ First → IfOk result (λ found. IfSome found (λ plan. IsPlanOf outset.now.named.now.query.now plan.order)) }
    ensures order { IfOk result (λ found. IfSome found (λ plan. IsEliminationOf outset.now.named.now.query.now plan.order)) }
    ensures cycle { IfOk result (λ found. IsNone found ↔ HasCycle outset.now.named.now.query.now (whole outset.now.named.now.query.now)) }
    ensures exact { IfOk result (λ found. IfSome found (λ plan. IsExact outset.now.named.now.query.now plan.order)) }
{
    let named = outset.named;
    let query = named.query;
    let variables = named.variables;
    let mut view = named.view;
    let mut left = named.left();
    let mut attacked = outset.attacked;
    let mut order = Items::new(alloc);
    'take: while let Some(atom) = next_atom(
        &Named {
            query,
            variables,
            view,
        },
        &outset.facts,
        &left,
        &attacked,
        choice,
    ) {
        order.push(atom)?;
        left.remove(atom);
        view = Named {
            query,
            variables,
            view,
        }
        .after(atom);
        let rest = Named {
            query,
            variables,
            view,
        };
        attacked = attacked_after(&rest, &attacked);
    }
    match left.first_shared(&AtomSet::full()) {
        None => Ok(Some(Plan { order })),
        Some(_) => Ok(None),
    }
}
