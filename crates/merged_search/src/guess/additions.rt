//! The log over rows that is written: additions under the ids that follow those of the clauses.

use crate::guess::parts::id_at;
use cnf_form::{Clause, Lit, Step};
use cqa_value::{Items, NoMemory};
use std::alloc::Global;
use std::mem::replace;

/// A log is given up where its literals and hints together are more.
const MOST_NUMBERS: usize = 16_000_000;

/// Additions after the clauses of a formula.
#[derive(Drop)]
pub(crate) struct Additions {
    steps: Vec<Step>,
    /// How many clauses are before the first.
    clauses: usize,
    /// How many literals and hints there are.
    numbers: usize,
    /// The most conflicts that the search may take; one step more is its log's most.
    budget: u32,
}

impl Additions {
    /// None, after so many clauses, of a search within a budget.
    pub(crate) fn new(alloc: Global, clauses: usize, budget: u32) -> Additions {
        Additions {
            steps: Vec::new(alloc),
            clauses,
            numbers: 0,
            budget,
        }
    }

    /// Adds a clause, and answers its id.
    pub(crate) fn add(
        &mut self,
        alloc: Global,
        lits: &[Lit],
        hints: &[i64],
    ) -> Result<i64, NoMemory> {
        let place = self.clauses.saturating_add(self.steps.len());
        let id = id_at(place);
        let clause = Clause {
            lits: Items::from_slice(alloc, lits)?,
        };
        self.steps.push(Step::Add {
            id: id.unsigned_abs(),
            clause,
            hints: Items::from_slice(alloc, hints)?,
        })?;
        self.numbers = self
            .numbers
            .saturating_add(lits.len())
            .saturating_add(hints.len());
        Ok(id)
    }

    /// Whether there are more than the budget and one allow, or too many numbers.
    pub(crate) fn are_too_many(&self) -> bool {
        self.steps.len() > self.budget as usize + 1 || self.numbers > MOST_NUMBERS
    }

    /// The steps; none are left.
    pub(crate) fn take_steps(&mut self, alloc: Global) -> Items<Step> {
        Items::from_vec(replace(&mut self.steps, Vec::new(alloc)))
    }
}
