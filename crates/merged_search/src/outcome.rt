//! Whether an outcome is an answer to a formula.

ghost use Rattle.std.specs.Prelude.{◌≡◌, ◌↔◌, IfOk, true};
ghost use Rattle.merged_search.specs.Answers.{IsDecisive};

use crate::model::is_model;
use crate::refutation::is_refutation;
use cdcl::Outcome;
use cnf_form::Cnf;
use cqa_value::NoMemory;
use std::alloc::Global;

/// Whether an outcome is a model or a refutation of a formula; of the latter, by at most `budget` + 1 additions under the ids
/// that follow those of the clauses. A spent log isn't looked at.
///
/// # Errors
///
/// `NoMemory` where memory is refused.
pub fn is_answer(alloc: Global, cnf: &Cnf, budget: u32, outcome: &Outcome) -> Result<bool, NoMemory>
    ensures { IfOk result (λ yes. yes ≡ true ↔ IsDecisive cnf.now budget outcome.now) }
{
    match outcome {
        Outcome::Sat(values) => Ok(is_model(cnf, values.as_slice())),
        Outcome::Unsat(log) => is_refutation(alloc, cnf, budget, log),
        Outcome::Spent(_) => Ok(false),
    }
}
