//! A formula that may be large is handed to the solver.

ghost use Rattle.std.specs.Prelude.{◌≡◌, IfOk};
ghost use Rattle.cnf_form.specs.Literals.{AreVarsInRange};
ghost use Rattle.cdcl.specs.Outcomes.{IsOnce, OutcomeIs};

use cqa_value::NoMemory;
use list_search::{Decided, with_outcome};
use row_lists::Encoded;
use std::alloc::Global;

/// Hands a formula to the solver, which searches rows that exclude the same rows as one.
///
/// # Errors
///
/// `NoMemory` where memory is refused.
pub fn solved_by_groups(alloc: Global, formula: Encoded, budget: u32) -> Result<Decided, NoMemory>
    requires range { AreVarsInRange formula.cnf }
    requires once { IsOnce formula.cnf }
    ensures same { IfOk result (λ decided. decided.formula ≡ formula) }
    ensures outcome { IfOk result (λ decided. OutcomeIs formula.cnf budget decided.outcome) }
{
    let found = merged_search::solve(alloc, &formula.cnf, budget);
    with_outcome(formula, found)
}
