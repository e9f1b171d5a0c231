//! What propagation and a first guess find out of a formula.

ghost use Rattle.std.specs.Prelude.{◌≡◌, ◌<◌, ◌+◌, IfOk, IsTrue, length, replicate};
ghost use Rattle.cnf_form.specs.declared.formula.Truth.TheVariants as truth;
ghost use Rattle.flat_formula.specs.Looks.{AreAllBelow, HaveTrue};
ghost use Rattle.flat_formula.specs.Findings.{FoundIs};

use crate::flat::FlatFormula;
use crate::look::open_lit;
use crate::units::{Turn, propagate, set};
use cnf_form::Truth;
use cqa_value::NoMemory;

/// What is found out of a formula without a search.
#[derive(Clone, Copy, Debug, PartialEq, Eq)]
pub enum Found {
    /// Some assignment satisfies it.
    Satisfiable,
    /// No assignment satisfies it.
    Unsatisfiable,
    /// It takes a search.
    Unclear,
}

/// Makes an open literal true, of the first clause that has no true one. Says whether there is one.
fn choose(formula: &FlatFormula, values: &mut Vec<Truth>) -> bool
    requires { AreAllBelow (length values.old.items) formula.now }
    ensures { length values.new.items ≡ length values.old.items }
{
    for at in 0..formula.len() {
        if let Some(lit) = open_lit(formula.clause(at), values.as_slice()) {
            set(values, lit);
            return true;
        }
    }
    false
}

/// Chooses literals one after the other, with what they force, until each clause has a true one or one is false.
/// Says whether each has.
fn guess(formula: &FlatFormula, values: &mut Vec<Truth>) -> bool
    requires { AreAllBelow (length values.old.items) formula.now }
    ensures { IsTrue result → HaveTrue values.new.items formula.now }
{
    for _choice in 0..formula.len() {
        if !choose(formula, values) {
            return false;
        }
        match propagate(formula, values) {
            Turn::Holds => return true,
            Turn::Refuted => return false,
            _ => {}
        }
    }
    false
}

/// Opens so many values.
fn open_values(values: &mut Vec<Truth>, count: usize) -> Result<(), NoMemory>
    ensures { IfOk result (λ done. values.new.items ≡ replicate count truth.Open) }
{
    values.clear();
    for _value in 0..count {
        values.push(Truth::Open)?;
    }
    Ok(())
}

/// What is found out of a formula without a search: by propagation, and where that doesn't decide it by one guess after
/// the other, none of which is taken back.
///
/// The values are room that can be used again.
///
/// # Errors
///
/// `NoMemory` where memory is refused.
pub fn glance(formula: &FlatFormula, vars: u32, values: &mut Vec<Truth>) -> Result<Found, NoMemory>
    requires { AreAllBelow (vars + 1) formula.now }
    ensures { IfOk result (FoundIs formula.now) }
{
    open_values(values, vars as usize + 1)?;
    Ok(match propagate(formula, values) {
        Turn::Refuted => Found::Unsatisfiable,
        Turn::Holds => Found::Satisfiable,
        _ => {
            if guess(formula, values) {
                Found::Satisfiable
            } else {
                Found::Unclear
            }
        }
    })
}
