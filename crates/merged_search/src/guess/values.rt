//! Values of groups, forced one after the other by clauses over rows.

use crate::guess::groups::{Groups, Place};
use cnf_form::{Lit, Truth};
use cqa_value::NoMemory;
use std::alloc::Global;

/// A literal with the place of the clause that forces it.
#[derive(Clone, Copy)]
pub(crate) struct Forced {
    pub lit: Lit,
    pub reason: usize,
}

/// What the values make of a clause that was said to force something.
#[derive(Clone, Copy)]
pub(crate) enum Look {
    Holds,
    Forces(Lit),
    AllFalse,
}

fn set(truths: &mut [Truth], var: u32, truth: Truth) {
    if let Some(value) = truths.get_mut(var as usize) {
        *value = truth;
    }
}

fn make_true(truths: &mut [Truth], lit: Lit) {
    let truth = if lit.positive {
        Truth::True
    } else {
        Truth::False
    };
    set(truths, lit.var, truth);
}

/// The values of groups, by their variables. What stands in no group is false.
#[derive(Drop)]
pub(crate) struct Values {
    truths: Vec<Truth>,
    /// What was forced, the first first.
    pub forced: Vec<Forced>,
}

impl Values {
    /// All groups' variables are open.
    pub(crate) fn new(alloc: Global, groups: u32) -> Result<Values, NoMemory> {
        let mut truths = vec![in alloc; Truth::Open; groups as usize + 1]?;
        set(&mut truths, Place::NONE.group, Truth::False);
        Ok(Values {
            truths,
            forced: Vec::new(alloc),
        })
    }

    /// The value of a literal.
    fn truth_of(&self, lit: Lit) -> Truth {
        match self.truths.get(lit.var as usize) {
            Some(Truth::True) if lit.positive => Truth::True,
            Some(Truth::False) if !lit.positive => Truth::True,
            Some(Truth::Open) => Truth::Open,
            _ => Truth::False,
        }
    }

    /// Makes literals false.
    pub(crate) fn deny(&mut self, lits: &[Lit]) {
        for lit in lits {
            make_true(&mut self.truths, lit.opposite());
        }
    }

    /// Makes a literal true that the clause at a place forces.
    pub(crate) fn force(&mut self, lit: Lit, reason: usize) -> Result<(), NoMemory> {
        make_true(&mut self.truths, lit);
        self.forced.push(Forced { lit, reason })?;
        Ok(())
    }

    /// Opens the variables of literals that were made false, and of what was forced.
    pub(crate) fn clear(&mut self, lits: &[Lit]) {
        self.open(lits);
        for forced in &self.forced {
            set(&mut self.truths, forced.lit.var, Truth::Open);
        }
        self.forced.clear();
    }

    /// Opens the variables of literals.
    fn open(&mut self, lits: &[Lit]) {
        for lit in lits {
            set(&mut self.truths, lit.var, Truth::Open);
        }
    }

    /// Looks for the first row of a clause that isn't false.
    pub(crate) fn look(&self, groups: &Groups, rows: &[u32]) -> Look {
        for row in rows {
            let lit = groups.place(*row).lit();
            match self.truth_of(lit) {
                Truth::True => return Look::Holds,
                Truth::Open => return Look::Forces(lit),
                Truth::False => {}
            }
        }
        Look::AllFalse
    }
}
