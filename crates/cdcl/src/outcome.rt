//! The call that decides a formula.

ghost use Rattle.std.specs.Prelude.{◌≡◌, ◌<◌, ◌≤◌, ◌+◌, ◌^◌, Bool, List, length, IfOk};
ghost use Rattle.cnf_form.specs.declared.formula.Cnf.{Cnf};
ghost use Rattle.cnf_form.specs.declared.log.Log.{Log};
ghost use Rattle.cnf_form.specs.Literals.{AreVarsInRange, literals};
ghost use Rattle.cnf_form.specs.Logs.{Refutes, AreConsecutive};
ghost use Rattle.cnf_form.specs.Spent.{IsSpentLog};
ghost use Rattle.cdcl.specs.Looking.{IsUnattached};
ghost use Rattle.cdcl.specs.Outcomes.{AttemptIs, IsModel, IsOnce, OutcomeIs};

use crate::solver::{Solver, Verdict};
use cnf_form::{Cnf, Log};
use cqa_value::{Items, NoMemory};
use search_trail::usage::FIRST_LIMIT;
use std::alloc::Global;

/// What a solver finds out of a formula, with evidence.
#[derive(Debug, Drop)]
pub enum Outcome {
    /// Truth values that satisfy every clause, that of variable i at place i - 1.
    Sat(Items<bool>),
    /// A refutation.
    Unsat(Log),
    /// As many added clauses as the budget allows, after which propagation decides nothing.
    Spent(Log),
}

/// What a new solver finds out of a formula whose clauses it has.
fn outcome_by(alloc: Global, solver: &mut Solver, budget: u32) -> Result<Outcome, NoMemory>
    requires new { IsUnattached solver.old }
    requires permanent { length (literals solver.old.clauses.items) ≤ solver.old.permanent }
    requires small { length solver.old.places.items ≤ 2 ^ 32 }
    requires some { 1 ≤ length solver.old.places.items }
    ensures { (cnf : Cnf) → literals solver.old.clauses.items ≡ literals cnf.clauses → length solver.old.places.items ≡ cnf.vars + 1 → IfOk result (λ outcome. AttemptIs solver.old.permanent cnf budget outcome) }
{
    let mut log = Vec::new(alloc);
    let verdict = solver.run(alloc, budget, &mut log)?;
    let steps = Items::from_vec(log);
    Ok(match verdict {
        Verdict::Sat => {
            drop(steps);
            Outcome::Sat(Items::from_vec(solver.values(alloc)?))
        }
        Verdict::Unsat => Outcome::Unsat(Log { steps }),
        Verdict::Spent => Outcome::Spent(Log { steps }),
    })
}

/// Searches once, where learnt clauses from a place on may be forgotten.
fn attempt(alloc: Global, cnf: &Cnf, budget: u32, permanent: usize) -> Result<Outcome, NoMemory>
    requires range { AreVarsInRange cnf.now }
    requires permanent { length cnf.now.clauses ≤ permanent }
    ensures { IfOk result (λ outcome. AttemptIs permanent cnf.now budget outcome) }
{
    let mut solver = Solver::new(alloc, cnf, permanent)?;
    let outcome = outcome_by(alloc, &mut solver, budget);
    drop(solver);
    outcome
}

/// Searches with learnt clauses forgotten, and where that comes to no answer, anew with all of them kept: each clause of a
/// spent log is to be new.
fn outcome_of(alloc: Global, cnf: &Cnf, budget: u32) -> Result<Outcome, NoMemory>
    requires range { AreVarsInRange cnf.now }
    ensures { IfOk result (λ outcome. OutcomeIs cnf.now budget outcome) }
{
    let count = cnf.clauses.len();
    if budget as usize > FIRST_LIMIT {
        match attempt(alloc, cnf, budget, count)? {
            Outcome::Spent(log) => drop(log),
            outcome => return Ok(outcome),
        }
    }
    attempt(alloc, cnf, budget, usize::MAX)
}

/// Decides whether some assignment satisfies a formula, by at most two searches of at most `budget` conflicts each: the
/// first may forget learnt clauses, and only where it comes to no answer the second keeps them all.
///
/// A budget of 0 asks for unit propagation alone, without search.
///
/// # Errors
///
/// `NoMemory` where memory is refused.
pub fn solve(alloc: Global, cnf: &Cnf, budget: u32) -> Result<Outcome, NoMemory>
    requires range { AreVarsInRange cnf.now }
    requires once { IsOnce cnf.now }
    ensures sat { (values : List Bool) → result ≡ Ok (Outcome.Sat values) → IsModel cnf.now values }
    ensures unsat { (log : Log) → result ≡ Ok (Outcome.Unsat log) → Refutes cnf.now log.steps }
    ensures unsat_ids { (log : Log) → result ≡ Ok (Outcome.Unsat log) → AreConsecutive (length cnf.now.clauses) log.steps }
    ensures unsat_size { (log : Log) → result ≡ Ok (Outcome.Unsat log) → length log.steps ≤ budget + 1 }
    ensures spent { (log : Log) → result ≡ Ok (Outcome.Spent log) → IsSpentLog cnf.now budget log.steps }
    ensures spent_below { (log : Log) → result ≡ Ok (Outcome.Spent log) → budget < 3 ^ cnf.now.vars }
{
    outcome_of(alloc, cnf, budget)
}
