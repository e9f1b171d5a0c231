//! Whether values satisfy a formula, found out clause by clause.

ghost use Rattle.std.specs.Prelude.{◌≡◌, ◌↔◌, true};
ghost use Rattle.cnf_form.specs.Literals.{MakesTrue, Satisfies};
ghost use Rattle.cdcl.specs.Outcomes.{IsModel, assignment};

use cnf_form::{Cnf, Lit};

/// Whether values make a literal true, that of variable i at place i - 1.
fn is_true(values: &[bool], lit: Lit) -> bool
    ensures { result ≡ true ↔ MakesTrue (assignment values.now) lit }
{
    let place = lit.var.saturating_sub(1) as usize;
    let value = values.get(place).copied().unwrap_or(false);
    value == lit.positive
}

/// Whether values make some literal of a clause true.
fn is_satisfied(values: &[bool], lits: &[Lit]) -> bool
    ensures { result ≡ true ↔ Satisfies (assignment values.now) lits.now }
{
    for lit in lits {
        if is_true(values, *lit) {
            return true;
        }
    }
    false
}

/// Whether there is a value for each variable of a formula, and they satisfy every clause.
pub fn is_model(cnf: &Cnf, values: &[bool]) -> bool
    ensures { result ≡ true ↔ IsModel cnf.now values.now }
{
    if values.len() != cnf.vars as usize {
        return false;
    }
    for clause in cnf.clauses.as_slice() {
        if !is_satisfied(values, clause.lits.as_slice()) {
            return false;
        }
    }
    true
}
