//! What truth values make of a clause.

ghost use Rattle.std.specs.Prelude.{◌≡◌, ◌<◌, ◌⊎◌, IfSome, length};
ghost use Rattle.flat_formula.specs.Looks.{AreBelow, IsLook, lit_truth};

use cnf_form::{Lit, Truth};

/// What the values of a clause's literals come to.
#[derive(Clone, Copy, PartialEq, Eq)]
pub enum Look {
    /// A literal is true.
    Holds,
    /// Two literals or more are open.
    Loose,
    /// One literal is open, and all others are false.
    Forces(Lit),
    /// All literals are false.
    Fails,
}

/// The truth value of a literal.
fn truth_of(values: &[Truth], lit: Lit) -> Truth
    requires { lit.var < length values.now }
    ensures { result ≡ lit_truth values.now lit }
{
    match values[lit.var as usize] {
        Truth::Open => Truth::Open,
        Truth::True => {
            if lit.positive {
                Truth::True
            } else {
                Truth::False
            }
        }
        Truth::False => {
            if lit.positive {
                Truth::False
            } else {
                Truth::True
            }
        }
    }
}

/// What an open literal makes of a look at the literals before it.
fn with_open(look: Look, lit: Lit) -> Look
    ensures { (result ≡ Look.Loose) ⊎ ((look ≡ Look.Fails) × (result ≡ Look.Forces lit)) }
{
    match look {
        Look::Fails => Look::Forces(lit),
        _ => Look::Loose,
    }
}

/// What the values make of a clause.
pub fn look_at(clause: &[Lit], values: &[Truth]) -> Look
    requires { AreBelow (length values.now) clause.now }
    ensures { IsLook values.now clause.now result }
{
    let mut look = Look::Fails;
    for lit in clause {
        match truth_of(values, *lit) {
            Truth::True => return Look::Holds,
            Truth::Open => look = with_open(look, *lit),
            Truth::False => {}
        }
    }
    look
}

/// An open literal of a clause that has no true one.
pub fn open_lit(clause: &[Lit], values: &[Truth]) -> Option<Lit>
    requires { AreBelow (length values.now) clause.now }
    ensures { IfSome result (λ lit. lit.var < length values.now) }
{
    let mut open = None;
    for lit in clause {
        match truth_of(values, *lit) {
            Truth::True => return None,
            Truth::Open => open = Some(*lit),
            Truth::False => {}
        }
    }
    open
}
