//! Whether no assignment satisfies the formula of a row of a pair.

ghost use Rattle.std.specs.Prelude.{◌↔◌, IfOk, IsTrue};
ghost use Rattle.pair_refutation.specs.Formulas.{IsPairFormula, IsReadTo, IsUnsatisfiable};

use crate::graph::Graph;
use crate::reading::{outcome, read};
use cnf_form::Cnf;
use cqa_value::NoMemory;
use std::alloc::Global;
use weak_pairs::Outcome;

/// Whether a block of a graph is left without a row.
fn is_blocked(alloc: Global, cnf: &Cnf, graph: &Graph) -> Result<bool, NoMemory>
    requires { IsReadTo cnf.now graph.now }
    ensures { IfOk result (λ blocked. IsTrue blocked ↔ IsUnsatisfiable cnf.now) }
{
    match outcome(alloc, cnf, graph)? {
        Outcome::Chosen(_) => Ok(false),
        Outcome::Blocked(_, _) => Ok(true),
    }
}

/// Whether no assignment satisfies the formula of a row of a pair, in a time linear in the formula.
///
/// # Errors
///
/// `NoMemory` where memory is refused.
pub fn is_unsatisfiable(alloc: Global, cnf: &Cnf) -> Result<bool, NoMemory>
    requires { IsPairFormula cnf.now }
    ensures { IfOk result (λ none. IsTrue none ↔ IsUnsatisfiable cnf.now) }
{
    let graph = read(alloc, cnf)?;
    let blocked = is_blocked(alloc, cnf, &graph);
    drop(graph);
    blocked
}
