//! A formula in one pool of literals.
//! It is cleared and filled again without a vector for each clause.

ghost use Rattle.std.specs.Prelude.{◌≡◌, ◌<◌, ◌≤◌, ◌++◌, ◌∷◌, [], length, OnOk, Some, slice_get};
ghost use Rattle.std.specs.List.{slice_range};

use cnf_form::Lit;
use cqa_value::NoMemory;
use std::alloc::Global;
use std::marker::Model;

/// The places of a clause's literals in the pool.
#[derive(Clone, Copy, Debug)]
pub struct Stretch {
    pub start: usize,
    pub end: usize,
}

/// Clauses, each a stretch of one pool of literals.
#[derive(Debug, Drop)]
pub struct FlatFormula {
    pool: Vec<Lit>,
    stretches: Vec<Stretch>,
}

impl Model for FlatFormula {
    ghost use Rattle.std.specs.Prelude.{List};
    ghost use Rattle.cnf_form.specs.declared.formula.Lit.{Lit};
    ghost use Rattle.flat_formula.specs.Flat.{clauses_of, AreWithin};

    ghost Value = { List (List Lit) };

    ghost view = { λ f. clauses_of f.pool.items f.stretches.items };

    ghost invariant = { λ f. AreWithin f.pool.items f.stretches.items };
}

/// The literals of a stretch.
fn part(pool: &[Lit], stretch: Stretch) -> &[Lit]
    requires order { stretch.start ≤ stretch.end }
    requires within { stretch.end ≤ length pool.now }
    ensures { result.now ≡ slice_range pool.now stretch.start stretch.end }
{
    &pool[stretch.start..stretch.end]
}

impl FlatFormula {
    /// A formula of no clauses.
    pub fn new(alloc: Global) -> FlatFormula
        ensures { result ≡ [] }
    {
        FlatFormula {
            pool: Vec::new(alloc),
            stretches: Vec::new(alloc),
        }
    }

    /// Takes all clauses away; their places are kept for others.
    pub fn clear(&mut self)
        ensures { self.new ≡ [] }
    {
        self.stretches.clear();
        self.pool.clear();
    }

    /// Adds a clause.
    ///
    /// # Errors
    ///
    /// `NoMemory` where memory is refused.
    pub fn add(&mut self, lits: &[Lit]) -> Result<(), NoMemory>
        ensures { OnOk result (self.new ≡ self.old ++ lits.now ∷ []) }
    {
        let start = self.pool.len();
        self.pool.extend_from_slice(lits)?;
        self.stretches.push(Stretch {
            start,
            end: self.pool.len(),
        })?;
        Ok(())
    }

    /// How many clauses there are.
    pub fn len(&self) -> usize
        ensures { result ≡ length self.now }
    {
        self.stretches.len()
    }

    /// The literals of the clause at a place.
    pub fn clause(&self, at: usize) -> &[Lit]
        requires { at < length self.now }
        ensures { slice_get self.now at ≡ Some result.now }
    {
        part(self.pool.as_slice(), self.stretches[at])
    }
}
