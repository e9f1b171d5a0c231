//! The call that decides a formula: a guess, which is handed out once it is checked, or a search without one.

ghost use Rattle.std.specs.Prelude.{◌≡◌, ◌<◌, ◌≤◌, ◌+◌, ◌^◌, Bool, List, length, IfOk, IfSome, true};
ghost use Rattle.cnf_form.specs.declared.log.Log.{Log};
ghost use Rattle.cnf_form.specs.Literals.{AreVarsInRange};
ghost use Rattle.cnf_form.specs.Logs.{Refutes, AreConsecutive};
ghost use Rattle.cnf_form.specs.Spent.{IsSpentLog};
ghost use Rattle.cdcl.specs.Outcomes.{IsModel, IsOnce, OutcomeIs};
ghost use Rattle.merged_search.specs.Answers.{IsDecisive};

use crate::guess::guess;
use crate::outcome::is_answer;
use cdcl::Outcome;
use cnf_form::Cnf;
use cqa_value::NoMemory;
use std::alloc::Global;

/// The number of clauses from which on a formula is searched by groups first.
pub const MERGED_FROM: usize = 1_000;

/// An outcome, where it is an answer.
fn checked(
    alloc: Global,
    cnf: &Cnf,
    budget: u32,
    outcome: Outcome,
) -> Result<Option<Outcome>, NoMemory>
    ensures { IfOk result (λ found. IfSome found (IsDecisive cnf.now budget)) }
{
    match is_answer(alloc, cnf, budget, &outcome) {
        Ok(true) => Ok(Some(outcome)),
        Ok(false) => {
            drop(outcome);
            Ok(None)
        }
        Err(fault) => {
            drop(outcome);
            Err(fault)
        }
    }
}

/// Decides a formula over one variable for each group of rows that exclude the same rows, by a search of at most `budget`
/// conflicts, and carries over to the rows what is found. `None` where the formula has clauses of other forms than blocks,
/// excluded rows and excluded pairs, where nothing is found within the limits, where what is found doesn't pass its check, or
/// where memory is refused before that.
///
/// # Errors
///
/// `NoMemory` where memory is refused for the check.
pub fn by_groups(alloc: Global, cnf: &Cnf, budget: u32) -> Result<Option<Outcome>, NoMemory>
    ensures { IfOk result (λ found. IfSome found (IsDecisive cnf.now budget)) }
{
    match guess(alloc, cnf, budget) {
        Ok(Some(outcome)) => checked(alloc, cnf, budget, outcome),
        Ok(None) | Err(NoMemory) => Ok(None),
    }
}

/// What is found by groups, and where that is nothing, what the solver finds.
fn grouped_or_searched(alloc: Global, cnf: &Cnf, budget: u32) -> Result<Outcome, NoMemory>
    requires range { AreVarsInRange cnf.now }
    requires once { IsOnce cnf.now }
    ensures { IfOk result (λ outcome. OutcomeIs cnf.now budget outcome) }
{
    match by_groups(alloc, cnf, budget)? {
        Some(outcome) => Ok(outcome),
        None => searched(alloc, cnf, budget),
    }
}

/// What the solver finds.
fn searched(alloc: Global, cnf: &Cnf, budget: u32) -> Result<Outcome, NoMemory>
    requires range { AreVarsInRange cnf.now }
    requires once { IsOnce cnf.now }
    ensures { IfOk result (λ outcome. OutcomeIs cnf.now budget outcome) }
{
    cdcl::solve(alloc, cnf, budget)
}

/// The outcome of a formula. Small ones, and those for which no search is asked, aren't guessed.
fn outcome_of(alloc: Global, cnf: &Cnf, budget: u32) -> Result<Outcome, NoMemory>
    requires range { AreVarsInRange cnf.now }
    requires once { IsOnce cnf.now }
    ensures { IfOk result (λ outcome. OutcomeIs cnf.now budget outcome) }
{
    if cnf.clauses.len() < MERGED_FROM || budget == 0 {
        searched(alloc, cnf, budget)
    } else {
        grouped_or_searched(alloc, cnf, budget)
    }
}

/// Decides whether some assignment satisfies a formula, by searches of at most `budget` conflicts each: where it has
/// `MERGED_FROM` clauses or more, first over one variable for each group of rows, and where that comes to no answer that
/// passes its check, over the rows.
///
/// A budget of 0 asks for unit propagation alone, without search.
///
/// # Errors
///
/// `NoMemory` where memory is refused.
pub fn solve(alloc: Global, cnf: &Cnf, budget: u32) -> Result<Outcome, NoMemory>
    requires range { AreVarsInRange cnf.now }
    requires once { IsOnce cnf.now }
    ensures sat { (values : List Bool) → result ≡ Ok (Outcome.Sat values) → IsModel cnf.now values }
    ensures unsat { (log : Log) → result ≡ Ok (Outcome.Unsat log) → Refutes cnf.now log.steps }
    ensures unsat_ids { (log : Log) → result ≡ Ok (Outcome.Unsat log) → AreConsecutive (length cnf.now.clauses) log.steps }
    ensures unsat_size { (log : Log) → result ≡ Ok (Outcome.Unsat log) → length log.steps ≤ budget + 1 }
    ensures spent { (log : Log) → result ≡ Ok (Outcome.Spent log) → IsSpentLog cnf.now budget log.steps }
    ensures spent_below { (log : Log) → result ≡ Ok (Outcome.Spent log) → budget < 3 ^ cnf.now.vars }
{
    outcome_of(alloc, cnf, budget)
}
