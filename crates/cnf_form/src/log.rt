//! Logs: steps that add clauses, each with its hints, and steps that delete some.

ghost use Rattle.std.specs.Prelude.{◌≡◌, IfOk};

use crate::Clause;
use cqa_value::{Items, NoMemory};
use std::alloc::Global;

/// A step of a log: a clause under its id, with the ids of the clauses that it follows from in turn,
/// or ids whose clauses are taken away.
#[derive(Debug, Drop)]
pub enum Step {
    Add {
        id: u64,
        clause: Clause,
        /// Ids, in turn. A negative hint, as LRAT has them in RAT steps, is none, and no step passes by it.
        hints: Items<i64>,
    },
    Delete {
        ids: Items<u64>,
    },
}

impl Step {
    /// A second step that equals this one.
    ///
    /// # Errors
    ///
    /// `NoMemory` where memory is refused.
    pub fn copy(&self, alloc: Global) -> Result<Step, NoMemory>
        ensures { IfOk result (λ s. s ≡ self.now) }
    {
        match self {
            Step::Add { id, clause, hints } => Ok(Step::Add {
                id: *id,
                clause: clause.copy(alloc)?,
                hints: Items::from_slice(alloc, hints.as_slice())?,
            }),
            Step::Delete { ids } => Ok(Step::Delete {
                ids: Items::from_slice(alloc, ids.as_slice())?,
            }),
        }
    }
}

/// Steps over the clauses of a formula, which have the ids from 1 on.
#[derive(Debug, Drop)]
pub struct Log {
    pub steps: Items<Step>,
}

impl Log {
    /// A second log that equals this one.
    ///
    /// # Errors
    ///
    /// `NoMemory` where memory is refused.
    pub fn copy(&self, alloc: Global) -> Result<Log, NoMemory>
        ensures { IfOk result (λ l. l ≡ self.now) }
    {
        let mut steps = Items::new(alloc);
        for step in self.steps.as_slice() {
            steps.push(step.copy(alloc)?)?;
        }
        Ok(Log { steps })
    }
}
