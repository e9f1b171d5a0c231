//! Which literals are true, by variable.

ghost use Rattle.std.specs.Prelude.{◌≡◌, ◌≢◌, ℕ, ◌<◌, ◌≤◌, OnOk, IfOk, true, false, length};
ghost use Rattle.lrat_check.specs.Marks.{truth_at, sign, IsFalse, AllOpen, Looked, HoldIs, Assumed};

use cnf_form::{Lit, Truth};
use cqa_value::NoMemory;
use std::alloc::Global;
use std::marker::Model;

/// The truth values of variables, by their numbers, and the variables that have one in the order in which they came.
#[derive(Drop)]
pub struct Marks {
    truths: Vec<Truth>,
    trail: Vec<u32>,
}

impl Model for Marks {
    ghost use Rattle.std.specs.Prelude.{List};
    ghost use Rattle.cnf_form.specs.declared.formula.Truth.{Truth};
    ghost use Rattle.lrat_check.specs.Marks.{IsValid};

    ghost Value = { List Truth };

    ghost view = { λ m. m.truths.items };

    ghost invariant = { λ m. IsValid m.truths.items m.trail.items };
}

/// What the marks make of a clause.
#[derive(Clone, Copy)]
pub enum Look {
    Conflict,
    Unit(Lit),
    Many,
}

fn sign_of(positive: bool) -> Truth
    ensures { result ≡ sign positive }
{
    if positive { Truth::True } else { Truth::False }
}

/// Makes room for the truth value of a variable.
fn grow(truths: &mut Vec<Truth>, var: u32) -> Result<(), NoMemory>
    ensures same { (v : ℕ) → truth_at truths.new.items v ≡ truth_at truths.old.items v }
    ensures more { length truths.old.items ≤ length truths.new.items }
    ensures room { OnOk result (var < length truths.new.items) }
{
    let room = var as usize + 1;
    if truths.len() < room {
        truths.resize(room, Truth::Open)?;
    }
    Ok(())
}

impl Marks {
    /// Every variable is open.
    pub fn new(alloc: Global) -> Marks
        ensures { AllOpen result }
    {
        Marks {
            truths: Vec::new(alloc),
            trail: Vec::new(alloc),
        }
    }

    /// The truth value of a variable.
    pub fn truth(&self, var: u32) -> Truth
        ensures { result ≡ truth_at self.now var }
    {
        self.truths
            .get(var as usize)
            .copied()
            .unwrap_or(Truth::Open)
    }

    /// Whether a literal is false.
    pub fn is_false(&self, lit: Lit) -> bool
        ensures yes { result ≡ true → IsFalse self.now lit }
        ensures no { result ≡ false → IsFalse self.now lit → ⊥ }
    {
        match self.truth(lit.var) {
            Truth::Open => false,
            Truth::True => !lit.positive,
            Truth::False => lit.positive,
        }
    }

    /// Makes a literal true, whatever the value of its variable.
    fn make_true(&mut self, lit: Lit) -> Result<(), NoMemory>
        ensures here { OnOk result (truth_at self.new lit.var ≡ sign lit.positive) }
        ensures others { OnOk result ((v : ℕ) → v ≢ lit.var → truth_at self.new v ≡ truth_at self.old v) }
    {
        grow(&mut self.truths, lit.var)?;
        self.trail.push(lit.var)?;
        self.truths[lit.var as usize] = sign_of(lit.positive);
        Ok(())
    }

    /// Makes the literal true, and answers false where it is false.
    pub fn hold(&mut self, lit: Lit) -> Result<bool, NoMemory>
        ensures { IfOk result (λ kept. HoldIs self.old self.new lit kept) }
    {
        match self.truth(lit.var) {
            Truth::Open => {
                self.make_true(lit)?;
                Ok(true)
            }
            truth => Ok(truth == sign_of(lit.positive)),
        }
    }

    /// Makes each literal false, and answers true where a variable has both signs.
    pub fn assume(&mut self, clause: &[Lit]) -> Result<bool, NoMemory>
        requires { AllOpen self.old }
        ensures { IfOk result (λ both. Assumed self.new clause.now both) }
    {
        for lit in clause {
            if !self.hold(lit.opposite())? {
                return Ok(true);
            }
        }
        Ok(false)
    }

    /// Makes every variable open again.
    pub fn clear(&mut self)
        ensures { AllOpen self.new }
    {
        while let Some(var) = self.trail.pop() {
            self.truths[var as usize] = Truth::Open;
        }
    }

    /// What is left of a clause: no literal that isn't false, one, or more.
    pub fn look(&self, clause: &[Lit]) -> Look
        ensures { Looked self.now clause.now result }
    {
        let mut found: Option<Lit> = None;
        for lit in clause {
            if self.is_false(*lit) {
                continue;
            }
            match found {
                None => {
                    found = Some(*lit);
                    continue;
                }
                Some(other) => {
                    if other != *lit {
                        return Look::Many;
                    }
                }
            }
        }
        match found {
            None => Look::Conflict,
            Some(lit) => Look::Unit(lit),
        }
    }
}
