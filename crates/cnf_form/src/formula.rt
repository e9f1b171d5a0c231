//! Literals, clauses and formulas.

ghost use Rattle.std.specs.Prelude.{◌≡◌, IfOk};
ghost use Rattle.cnf_form.specs.Literals.{opposite};

use cqa_value::{Items, NoMemory};
use std::alloc::Global;

/// A variable, numbered from 1, or its negation.
#[derive(Clone, Copy, Debug, PartialEq, Eq)]
pub struct Lit {
    pub var: u32,
    pub positive: bool,
}

impl Lit {
    /// The literal of the same variable with the other sign.
    pub fn opposite(self) -> Lit
        ensures { result ≡ opposite self }
    {
        Lit {
            var: self.var,
            positive: !self.positive,
        }
    }
}

/// The truth value of a variable or a literal under an assignment that may leave variables open.
#[derive(Clone, Copy, Debug, PartialEq, Eq)]
pub enum Truth {
    True,
    False,
    Open,
}

/// Literals, one of which is to be true.
#[derive(Debug, Drop)]
pub struct Clause {
    pub lits: Items<Lit>,
}

impl Clause {
    /// A second clause with the same literals.
    ///
    /// # Errors
    ///
    /// `NoMemory` where memory is refused.
    pub fn copy(&self, alloc: Global) -> Result<Clause, NoMemory>
        ensures { IfOk result (λ c. c ≡ self.now) }
    {
        let lits = Items::from_slice(alloc, self.lits.as_slice())?;
        Ok(Clause { lits })
    }
}

/// A formula over the variables 1 to `vars`: clauses that are all to be true.
#[derive(Debug, Drop)]
pub struct Cnf {
    pub vars: u32,
    pub clauses: Items<Clause>,
}

impl Cnf {
    /// A second formula that equals this one.
    ///
    /// # Errors
    ///
    /// `NoMemory` where memory is refused.
    pub fn copy(&self, alloc: Global) -> Result<Cnf, NoMemory>
        ensures { IfOk result (λ c. c ≡ self.now) }
    {
        let mut clauses = Items::new(alloc);
        for clause in self.clauses.as_slice() {
            clauses.push(clause.copy(alloc)?)?;
        }
        Ok(Cnf {
            vars: self.vars,
            clauses,
        })
    }
}
