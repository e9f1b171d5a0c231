//! What the solver finds out of a formula whose answer alone is asked for.

ghost use Rattle.std.specs.Prelude.{IfOk};
ghost use Rattle.cnf_form.specs.Literals.{AreVarsInRange, literals};
ghost use Rattle.cdcl.specs.Outcomes.{IsOnce};
ghost use Rattle.flat_formula.specs.Findings.{FoundIs};
ghost use Rattle.list_search.specs.Finding.{FoundOf};

use cdcl::{Outcome, solve};
use cnf_form::Cnf;
use cqa_value::NoMemory;
use flat_formula::Found;
use std::alloc::Global;

/// What an outcome finds out of a formula.
fn found_by(outcome: Outcome) -> Found
    ensures { FoundOf outcome result }
{
    match outcome {
        Outcome::Sat(values) => {
            drop(values);
            Found::Satisfiable
        }
        Outcome::Unsat(log) => {
            drop(log);
            Found::Unsatisfiable
        }
        Outcome::Spent(log) => {
            drop(log);
            Found::Unclear
        }
    }
}

/// What the solver finds out of a formula, by a search of at most `budget` conflicts.
///
/// # Errors
///
/// `NoMemory` where memory is refused.
pub fn found_in(alloc: Global, cnf: &Cnf, budget: u32) -> Result<Found, NoMemory>
    requires range { AreVarsInRange cnf.now }
    requires once { IsOnce cnf.now }
    ensures { IfOk result (FoundIs (literals cnf.now.clauses)) }
{
    match solve(alloc, cnf, budget) {
        Ok(outcome) => Ok(found_by(outcome)),
        Err(fault) => Err(fault),
    }
}
