//! What a formula comes to by groups of its rows: the formula over groups is solved, and what is found is carried over. Nothing
//! is promised of the answer.

mod additions;
mod groups;
mod lifting;
mod merged;
mod needed;
mod parts;
mod resolvent;
mod rows;
mod values;

use crate::accepted::is_accepted;
use crate::guess::additions::Additions;
use crate::guess::groups::Groups;
use crate::guess::lifting::lift_log;
use crate::guess::merged::{Merged, merge};
use cdcl::{Outcome, solve};
use cnf_form::{Cnf, Log};
use cqa_value::{Items, NoMemory};
use std::alloc::Global;

/// The value of a row from those of the groups: false where it is never kept, and true where it excludes none.
fn value_of(groups: &Groups, values: &[bool], row: u32) -> bool {
    let place = groups.place(row);
    if place.group == 0 {
        return groups.exclusion(row) == 0;
    }
    let value = values
        .get(place.group.saturating_sub(1) as usize)
        .copied()
        .unwrap_or(false);
    value == place.first
}

/// The values of so many rows from those of the groups.
fn values_of(
    alloc: Global,
    groups: &Groups,
    values: &[bool],
    vars: u32,
) -> Result<Items<bool>, NoMemory> {
    let mut rows = Items::with_capacity(alloc, vars as usize)?;
    for row in 1..=vars {
        rows.push(value_of(groups, values, row))?;
    }
    Ok(rows)
}

/// What the outcome of the formula over groups says of the rows.
fn carry_over(
    alloc: Global,
    cnf: &Cnf,
    budget: u32,
    groups: &Groups,
    merged: Merged,
    outcome: &Outcome,
) -> Result<Option<Outcome>, NoMemory> {
    match outcome {
        Outcome::Sat(values) => {
            let rows = values_of(alloc, groups, values.as_slice(), cnf.vars)?;
            Ok(Some(Outcome::Sat(rows)))
        }
        Outcome::Unsat(log) => {
            let additions = Additions::new(alloc, cnf.clauses.len(), budget);
            let lifted = lift_log(alloc, groups, cnf.vars, merged.rows, additions, log)?;
            Ok(lifted.map(Outcome::Unsat))
        }
        Outcome::Spent(_) => Ok(None),
    }
}

/// Solves the formula over groups, and carries over what is found.
fn solve_merged(
    alloc: Global,
    cnf: &Cnf,
    budget: u32,
    groups: &Groups,
) -> Result<Option<Outcome>, NoMemory> {
    let merged = merge(alloc, cnf, groups)?;
    if !is_accepted(&merged.cnf) {
        return Ok(None);
    }
    let outcome = solve(alloc, &merged.cnf, budget)?;
    let carried = carry_over(alloc, cnf, budget, groups, merged, &outcome);
    drop(outcome);
    carried
}

/// What the formula over groups of rows comes to, carried over to the rows' formula; `None` where the formula isn't of this
/// form, or nothing is found within the limits.
///
/// # Errors
///
/// `NoMemory` where memory is refused.
pub(crate) fn guess(alloc: Global, cnf: &Cnf, budget: u32) -> Result<Option<Outcome>, NoMemory> {
    match Groups::of(alloc, cnf)? {
        None => Ok(None),
        Some(groups) => {
            let found = solve_merged(alloc, cnf, budget, &groups);
            drop(groups);
            found
        }
    }
}
