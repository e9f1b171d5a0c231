//! The method that serves a query.

ghost use Rattle.std.specs.Prelude.{IfOk};
ghost use Rattle.cqa_model.specs.Variables.{whole};
ghost use Rattle.cqa_model.specs.Naming.{AreVariables};
ghost use Rattle.key_closure.specs.Members.{AreSame, seen};
ghost use Rattle.query_strategy.specs.Strategies.{HasNoPlan, IsStrategyOf, TakesPlan};

use crate::pair::is_pair;
use cqa_model::{Plan, Query, Variables};
use cqa_value::NoMemory;
use fo_rewrite::{elimination_in, plan_in};
use key_closure::{Named, View};
use std::alloc::Global;

/// The method by which the rows of a query are decided.
#[derive(Drop)]
pub enum Strategy {
    /// Its attacks have no cycle: by an order of its atoms, which holds for a row exactly where the row is certain.
    Plan(Plan),
    /// Its two atoms attack each other weakly: as a graph of blocks and pairs of rows.
    Pair,
    /// Any other query: by searches for a repair without a witness.
    Search,
}

/// The method of a query whose attacks have a cycle.
fn without_plan(named: &Named<'_>) -> Strategy
    requires whole { AreSame (whole named.now.query.now) (seen named.now.query.now named.now.view) }
    requires cycle { HasNoPlan named.now.query.now }
    ensures is { IsStrategyOf named.now.query.now result }
    ensures plan { TakesPlan named.now.query.now result }
{
    if is_pair(named) {
        Strategy::Pair
    } else {
        Strategy::Search
    }
}

/// The method of a query with these variables, whose order is its plan: by a plan exactly where its attacks have no cycle, as a
/// pair exactly where its two atoms attack each other weakly, and else by search. The attacks are computed once.
///
/// # Errors
///
/// `NoMemory` where memory is refused.
pub fn strategy_of(
    alloc: Global,
    query: &Query,
    variables: &Variables,
) -> Result<Strategy, NoMemory>
    requires { ∥ AreVariables query.now variables.now ∥₁ }
    ensures is { IfOk result (IsStrategyOf query.now) }
    ensures plan { IfOk result (TakesPlan query.now) }
{
    let named = Named {
        query,
        variables,
        view: View::whole(query),
    };
    match plan_in(alloc, &named)? {
        Some(plan) => Ok(Strategy::Plan(plan)),
        None => Ok(without_plan(&named)),
    }
}

/// The method of a query with these variables, whose order is good for evaluation over tables of these sizes: the rows of each
/// atom's table, none where it is missing.
///
/// # Errors
///
/// `NoMemory` where memory is refused.
pub fn strategy_by_sizes(
    alloc: Global,
    query: &Query,
    variables: &Variables,
    sizes: &[u32],
) -> Result<Strategy, NoMemory>
    requires { ∥ AreVariables query.now variables.now ∥₁ }
    ensures { IfOk result (IsStrategyOf query.now) }
{
    let named = Named {
        query,
        variables,
        view: View::whole(query),
    };
    match elimination_in(alloc, &named, sizes)? {
        Some(plan) => Ok(Strategy::Plan(plan)),
        None => Ok(without_plan(&named)),
    }
}
