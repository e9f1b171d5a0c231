//! Unit propagation over truth values, clause by clause.

ghost use Rattle.std.specs.Prelude.{◌≡◌, ◌≢◌, ◌<◌, ℕ, Bool, length};
ghost use Rattle.cnf_form.specs.Literals.{Satisfies, SatisfiesAll};
ghost use Rattle.flat_formula.specs.Looks.{Agrees, AreAllBelow, AreBelow, HasTrue, HaveTrue, IsSet};

use crate::flat::FlatFormula;
use crate::look::{Look, look_at};
use cnf_form::{Lit, Truth};

/// What a turn over clauses comes to.
#[derive(Clone, Copy, PartialEq, Eq)]
pub enum Turn {
    /// Each clause has a true literal.
    Holds,
    /// Nothing was forced.
    Same,
    /// Some literals were forced.
    Changed,
    /// A clause is false.
    Refuted,
}

/// Makes a literal true.
pub fn set(values: &mut Vec<Truth>, lit: Lit)
    requires { lit.var < length values.old.items }
    ensures { IsSet values.old.items lit values.new.items }
{
    values[lit.var as usize] = if lit.positive {
        Truth::True
    } else {
        Truth::False
    };
}

/// Looks at one clause, and makes true what it forces.
fn step(clause: &[Lit], values: &mut Vec<Truth>, turn: Turn) -> Turn
    requires { AreBelow (length values.old.items) clause.now }
    ensures len { length values.new.items ≡ length values.old.items }
    ensures kept { (v : ℕ → Bool) → Satisfies v clause.now → Agrees v values.old.items → Agrees v values.new.items }
    ensures refuted { result ≡ Turn.Refuted → turn ≢ Turn.Refuted → (v : ℕ → Bool) → Satisfies v clause.now → Agrees v values.old.items → ⊥ }
    ensures holds { result ≡ Turn.Holds → (turn ≡ Turn.Holds) × (values.new.items ≡ values.old.items) × HasTrue values.new.items clause.now }
{
    match look_at(clause, values.as_slice()) {
        Look::Holds => turn,
        Look::Loose => match turn {
            Turn::Holds => Turn::Same,
            _ => turn,
        },
        Look::Forces(lit) => {
            set(values, lit);
            Turn::Changed
        }
        Look::Fails => Turn::Refuted,
    }
}

/// Looks at each clause once.
fn pass(formula: &FlatFormula, values: &mut Vec<Truth>) -> Turn
    requires { AreAllBelow (length values.old.items) formula.now }
    ensures len { length values.new.items ≡ length values.old.items }
    ensures kept { (v : ℕ → Bool) → SatisfiesAll v formula.now → Agrees v values.old.items → Agrees v values.new.items }
    ensures refuted { result ≡ Turn.Refuted → (v : ℕ → Bool) → SatisfiesAll v formula.now → Agrees v values.old.items → ⊥ }
    ensures holds { result ≡ Turn.Holds → HaveTrue values.new.items formula.now }
{
    let mut turn = Turn::Holds;
    for at in 0..formula.len() {
        turn = step(formula.clause(at), values, turn);
        if turn == Turn::Refuted {
            return Turn::Refuted;
        }
    }
    turn
}

/// So often the clauses are looked at in a row. A chain of implications may ask for more; it is left to the solver.
const MOST_TURNS: usize = 16;

/// Makes true what the clauses force, turn by turn, until nothing more is forced.
pub fn propagate(formula: &FlatFormula, values: &mut Vec<Truth>) -> Turn
    requires { AreAllBelow (length values.old.items) formula.now }
    ensures len { length values.new.items ≡ length values.old.items }
    ensures refuted { result ≡ Turn.Refuted → (v : ℕ → Bool) → SatisfiesAll v formula.now → Agrees v values.old.items → ⊥ }
    ensures holds { result ≡ Turn.Holds → HaveTrue values.new.items formula.now }
{
    for _turn in 0..MOST_TURNS {
        let turn = pass(formula, values);
        if turn != Turn::Changed {
            return turn;
        }
    }
    Turn::Changed
}
