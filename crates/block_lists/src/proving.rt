//! What the solver finds out of a group, with evidence.

ghost use Rattle.std.specs.Prelude.{◌≤◌, IfOk};
ghost use Rattle.std.specs.List.{sum};
ghost use Rattle.block_lists.specs.declared.limits.TheConstants.{MOST_GROUP_ROWS};
ghost use Rattle.block_lists.specs.Groups.{IsGroup};
ghost use Rattle.block_lists.specs.Judging.{HasEachValue, IsProved, Shows};

use crate::formula::formula_of;
use crate::guess::free_avoids;
use crate::picks::fill_choice;
use crate::room::Room;
use crate::walking::{Walked, walk};
use block_choices::Lists;
use cdcl::Outcome;
use cnf_form::{Cnf, Log};
use cqa_value::NoMemory;
use std::alloc::Global;

/// What is found out of a group, with a refutation where each choice holds a list whole.
#[derive(Debug, Drop)]
pub enum Proved {
    /// Each choice of a row of each block holds a list whole: the group's formula, and a log that refutes it.
    Refuted { cnf: Cnf, log: Log },
    /// The choice in the room holds none.
    Open,
    /// The budget is used up for the group's formula.
    Spent,
}

/// What an outcome of its formula shows of a group; where that is a model, its choice is left in `choice`.
fn shown_by(
    sizes: &[u32],
    cnf: Cnf,
    outcome: Outcome,
    choice: &mut Vec<u32>,
) -> Result<Proved, NoMemory>
    requires few { sum sizes.now ≤ MOST_GROUP_ROWS }
    requires each { HasEachValue sizes.now outcome }
    ensures { IfOk result (Shows sizes.now cnf outcome choice.new.items) }
{
    match outcome {
        Outcome::Sat(values) => {
            drop(cnf);
            let filled = fill_choice(sizes, values.as_slice(), choice);
            drop(values);
            filled?;
            Ok(Proved::Open)
        }
        Outcome::Unsat(log) => Ok(Proved::Refuted { cnf, log }),
        Outcome::Spent(log) => {
            drop(log);
            drop(cnf);
            Ok(Proved::Spent)
        }
    }
}

/// What the solver finds out of a group, by searches of at most `budget` conflicts each.
fn prove_formula(
    alloc: Global,
    sizes: &[u32],
    lists: &Lists,
    budget: u32,
    choice: &mut Vec<u32>,
) -> Result<Proved, NoMemory>
    requires { IsGroup sizes.now lists.now }
    ensures { IfOk result (IsProved sizes.now lists.now budget choice.new.items) }
{
    let cnf = formula_of(alloc, sizes, lists)?;
    match merged_search::solve(alloc, &cnf, budget) {
        Ok(outcome) => shown_by(sizes, cnf, outcome, choice),
        Err(fault) => {
            drop(cnf);
            Err(fault)
        }
    }
}

/// What free rows show of a group, and if that is nothing, what the solver finds out.
pub(crate) fn prove_unclear(
    alloc: Global,
    sizes: &[u32],
    lists: &Lists,
    budget: u32,
    choice: &mut Vec<u32>,
) -> Result<Proved, NoMemory>
    requires { IsGroup sizes.now lists.now }
    ensures { IfOk result (IsProved sizes.now lists.now budget choice.new.items) }
{
    if free_avoids(alloc, sizes, lists, choice)? {
        Ok(Proved::Open)
    } else {
        prove_formula(alloc, sizes, lists, budget, choice)
    }
}

/// Whether each choice of a row of each block holds a list whole, with a refutation of the group's formula, or a choice that
/// holds none, which is left in the room. It takes a walk, and then searches of at most `budget` conflicts each.
///
/// # Errors
///
/// `NoMemory` where memory is refused.
pub fn prove(
    alloc: Global,
    sizes: &[u32],
    lists: &Lists,
    budget: u32,
    room: &mut Room,
) -> Result<Proved, NoMemory>
    requires { IsGroup sizes.now lists.now }
    ensures { IfOk result (IsProved sizes.now lists.now budget room.new.choice.items) }
{
    match walk(sizes, lists, &mut room.choice)? {
        Walked::Avoided => Ok(Proved::Open),
        Walked::Forced => prove_formula(alloc, sizes, lists, budget, &mut room.choice),
        Walked::Unclear => prove_unclear(alloc, sizes, lists, budget, &mut room.choice),
    }
}
