//! A formula is handed to the solver, and what it answers is the evidence.
//! A model gives a repair that keeps no list whole, and a refutation says that there is none.

ghost use Rattle.std.specs.Prelude.{◌≡◌, IfOk, Ok};
ghost use Rattle.cnf_form.specs.Literals.{AreVarsInRange};
ghost use Rattle.cdcl.specs.Outcomes.{IsOnce, OutcomeIs};

use cdcl::Outcome;
use cqa_value::NoMemory;
use row_lists::Encoded;
use std::alloc::Global;

/// A formula of rows, and what the solver found out of it.
#[derive(Debug, Drop)]
pub struct Decided {
    pub formula: Encoded,
    pub outcome: Outcome,
}

/// A formula with what was found out of it.
///
/// # Errors
///
/// `NoMemory` where that was found in place of an outcome.
pub fn with_outcome(formula: Encoded, found: Result<Outcome, NoMemory>) -> Result<Decided, NoMemory>
    ensures same { IfOk result (λ decided. decided.formula ≡ formula) }
    ensures outcome { IfOk result (λ decided. found ≡ Ok decided.outcome) }
{
    match found {
        Ok(outcome) => Ok(Decided { formula, outcome }),
        Err(fault) => {
            drop(formula);
            Err(fault)
        }
    }
}

/// Hands a formula to the solver.
///
/// # Errors
///
/// `NoMemory` where memory is refused.
pub(crate) fn solved(alloc: Global, formula: Encoded, budget: u32) -> Result<Decided, NoMemory>
    requires range { AreVarsInRange formula.cnf }
    requires once { IsOnce formula.cnf }
    ensures same { IfOk result (λ decided. decided.formula ≡ formula) }
    ensures outcome { IfOk result (λ decided. OutcomeIs formula.cnf budget decided.outcome) }
{
    let found = cdcl::solve(alloc, &formula.cnf, budget);
    with_outcome(formula, found)
}
