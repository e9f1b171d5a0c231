//! Which formulas the solver is given: the variables of each clause rise, and are of the formula.

ghost use Rattle.std.specs.Prelude.{◌≡◌, ◌↔◌, true};
ghost use Rattle.cnf_form.specs.Literals.{AreVarsInRange};
ghost use Rattle.cdcl.specs.Outcomes.{IsOnce};
ghost use Rattle.merged_search.specs.Clauses.{AreRising, RisesFrom};

use cnf_form::{Cnf, Lit};

/// Whether the variables of a clause rise, from 1 or more to `vars` at most.
fn rises(vars: u32, lits: &[Lit]) -> bool
    ensures { result ≡ true ↔ RisesFrom 0 vars lits.now }
{
    let mut last = 0;
    for lit in lits {
        if lit.var <= last || vars < lit.var {
            return false;
        }
        last = lit.var;
    }
    true
}

/// Whether the variables of each clause rise, from 1 or more to the formula's number of variables at most. Then the solver
/// takes the formula.
pub fn is_accepted(cnf: &Cnf) -> bool
    ensures exact { result ≡ true ↔ AreRising cnf.now }
    ensures range { result ≡ true → AreVarsInRange cnf.now }
    ensures once { result ≡ true → IsOnce cnf.now }
{
    for clause in cnf.clauses.as_slice() {
        if !rises(cnf.vars, clause.lits.as_slice()) {
            return false;
        }
    }
    true
}
