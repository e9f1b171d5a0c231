//! Whether a log refutes a formula by additions under consecutive ids, and by no more than a budget allows.

ghost use Rattle.std.specs.Prelude.{◌≡◌, ◌∷◌, ◌+◌, ◌≤◌, ◌↔◌, [], IfOk, IfSome, None, length, true};
ghost use Rattle.cnf_form.specs.Logs.{Refutes, AreConsecutive};

use cnf_form::{Cnf, Log, Step};
use cqa_value::{Fail, NoMemory};
use lrat_check::check;
use std::alloc::Global;

/// The id of an addition, where it is the next after another.
fn next_id(last: u64, step: &Step) -> Option<u64>
    ensures some { IfSome result (λ id. (id ≡ last + 1) × AreConsecutive last (step.now ∷ [])) }
    ensures none { result ≡ None → AreConsecutive last (step.now ∷ []) → ⊥ }
{
    match step {
        Step::Add { id, .. } => {
            if *id > last && *id - last == 1 {
                Some(*id)
            } else {
                None
            }
        }
        Step::Delete { .. } => None,
    }
}

/// Whether steps are additions alone, under the ids that follow a number.
fn are_consecutive(count: u64, steps: &[Step]) -> bool
    ensures { result ≡ true ↔ AreConsecutive count steps.now }
{
    let mut last = count;
    for step in steps {
        let Some(id) = next_id(last, step) else {
            return false;
        };
        last = id;
    }
    true
}

/// Whether a log refutes a formula by at most `budget` + 1 additions, under the ids that follow those of the clauses.
///
/// # Errors
///
/// `NoMemory` where memory is refused.
pub fn is_refutation(alloc: Global, cnf: &Cnf, budget: u32, log: &Log) -> Result<bool, NoMemory>
    ensures { IfOk result (λ yes. yes ≡ true ↔ (Refutes cnf.now log.now.steps × AreConsecutive (length cnf.now.clauses) log.now.steps × (length log.now.steps ≤ budget + 1))) }
{
    let steps = log.steps.as_slice();
    if steps.len() > budget as usize + 1 || !are_consecutive(cnf.clauses.len() as u64, steps) {
        return Ok(false);
    }
    match check(alloc, cnf, log) {
        Ok(()) => Ok(true),
        Err(Fail::Refused(_)) => Ok(false),
        Err(Fail::NoMemory) => Err(NoMemory),
    }
}
