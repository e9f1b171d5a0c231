//! The check of a whole log.

ghost use Rattle.std.specs.Prelude.{◌≡◌, ◌⊎◌, ℕ, Bool, OnOk, IfOk, IfErr, IsErrAnd, length};
ghost use Rattle.cnf_form.specs.Logs.{Refutes, numbered};
ghost use Rattle.lrat_check.specs.declared.fault.LogFault.{LogFault as FaultValue};
ghost use Rattle.lrat_check.specs.Checked.{Checked, RunIs};
ghost use Rattle.lrat_check.specs.Failing.{Refused};
ghost use Rattle.cnf_form.specs.Literals.{SatisfiesAll, literals};

use crate::LogFault;
use crate::checker::Checker;
use cnf_form::{Cnf, Log};
use cqa_value::{Fail, NoMemory};
use std::alloc::Global;

fn check_all(alloc: Global, cnf: &Cnf, log: &Log) -> Result<Option<LogFault>, NoMemory>
    ensures { IfOk result (λ f. RunIs (numbered (literals cnf.now.clauses)) (length cnf.now.clauses) log.now.steps f) }
{
    let mut checker = Checker::new(alloc, cnf.clauses.as_slice())?;
    for step in log.steps.as_slice() {
        checker.take(step)?;
    }
    Ok(checker.end())
}

/// Checks that a log refutes a formula. Then no assignment satisfies the formula.
///
/// # Errors
///
/// `LogFault` with the first step that fails and its cause; or, where no step fails and none adds the empty clause, with
/// the number of steps and `NoEmptyClause`. `NoMemory` where memory is refused.
pub fn check(alloc: Global, cnf: &Cnf, log: &Log) -> Result<(), Fail<LogFault>>
    // Yes comes for refutations alone, and a fault for logs that have it.
    ensures exact { Checked cnf.now log.now.steps result }
    // Each refutation gets yes, and each other log its fault, unless memory is refused.
    ensures only_yes { Refutes cnf.now log.now.steps → IfErr result (λ e. e ≡ Fail.NoMemory) }
    ensures only_fault { (fault : FaultValue) → Refused cnf.now log.now.steps fault → IsErrAnd result (λ e. (e ≡ Fail.Refused fault) ⊎ (e ≡ Fail.NoMemory)) }
    // Nothing satisfies a formula whose log gets yes.
    ensures sound { OnOk result ((v : ℕ → Bool) → SatisfiesAll v (literals cnf.now.clauses) → ⊥) }
{
    match check_all(alloc, cnf, log)? {
        None => Ok(()),
        Some(fault) => Err(Fail::Refused(fault)),
    }
}
