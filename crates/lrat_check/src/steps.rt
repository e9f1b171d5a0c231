//! Steps, one by one.

ghost use Rattle.std.specs.Prelude.{◌≡◌, IfOk, true, false};
ghost use Rattle.cnf_form.specs.Logs.{top_after, added};
ghost use Rattle.lrat_check.specs.Marks.{AllOpen};
ghost use Rattle.lrat_check.specs.Store.{live_of};
ghost use Rattle.lrat_check.specs.Steps.{AddIs, StepIs, AddsEmpty};

use crate::LogCause;
use crate::deleting::delete_all;
use crate::following::try_addition;
use crate::marks::Marks;
use crate::store::Store;
use cnf_form::{Lit, Step};
use cqa_value::NoMemory;

/// Makes a clause live under an id, if the id rises and the clause follows.
fn add(
    store: &mut Store,
    marks: &mut Marks,
    top: u64,
    id: u64,
    clause: &[Lit],
    hints: &[i64],
) -> Result<Option<LogCause>, NoMemory>
    requires { AllOpen marks.old }
    ensures open { AllOpen marks.new }
    ensures added { IfOk result (λ f. AddIs (live_of store.old) top id clause.now hints.now (live_of store.new) f) }
{
    if id <= top {
        return Ok(Some(LogCause::IdNotRising));
    }
    match try_addition(store, marks, clause, hints)? {
        Some(cause) => Ok(Some(cause)),
        None => {
            store.add(id, clause)?;
            Ok(None)
        }
    }
}

/// Takes a step over the live clauses and the greatest id so far, and gives the cause where it fails.
pub fn take_step(
    store: &mut Store,
    marks: &mut Marks,
    top: u64,
    step: &Step,
) -> Result<Option<LogCause>, NoMemory>
    requires { AllOpen marks.old }
    ensures open { AllOpen marks.new }
    ensures taken { IfOk result (λ f. StepIs (live_of store.old) top step.now (live_of store.new) f) }
{
    match step {
        Step::Add { id, clause, hints } => {
            add(
                store,
                marks,
                top,
                *id,
                clause.lits.as_slice(),
                hints.as_slice(),
            )
        }
        Step::Delete { ids } => {
            if delete_all(store, ids.as_slice()) {
                Ok(None)
            } else {
                Ok(Some(LogCause::UnknownId))
            }
        }
    }
}

/// The greatest id after a step that passed.
pub fn top_of(top: u64, step: &Step) -> u64
    ensures { result ≡ top_after top step.now }
{
    match step {
        Step::Add { id, .. } => *id,
        Step::Delete { .. } => top,
    }
}

fn adds_empty(step: &Step) -> bool
    ensures yes { result ≡ true → AddsEmpty step.now }
    ensures no { result ≡ false → AddsEmpty step.now → ⊥ }
{
    match step {
        Step::Add { clause, .. } => clause.lits.is_empty(),
        Step::Delete { .. } => false,
    }
}

/// Whether the empty clause was added before a step or by it.
pub fn saw_empty(seen: bool, step: &Step) -> bool
    ensures kept { seen ≡ true → result ≡ true }
    ensures before { result ≡ false → seen ≡ false }
    ensures yes { seen ≡ false → result ≡ true → AddsEmpty step.now }
    ensures no { result ≡ false → AddsEmpty step.now → ⊥ }
{
    seen || adds_empty(step)
}
