//! Clauses of rows, one of which is kept: stretches of one pool, with their ids in the rows' log.

use cqa_value::NoMemory;
use std::alloc::Global;

/// Clauses over rows, in the order of those over groups that they stand for.
#[derive(Drop)]
pub(crate) struct RowClauses {
    pool: Vec<u32>,
    /// Where the rows of each clause end.
    ends: Vec<usize>,
    ids: Vec<i64>,
}

impl RowClauses {
    /// No clause.
    pub(crate) fn new(alloc: Global) -> RowClauses {
        RowClauses {
            pool: Vec::new(alloc),
            ends: Vec::new(alloc),
            ids: Vec::new(alloc),
        }
    }

    /// How many clauses there are.
    pub(crate) fn len(&self) -> usize {
        self.ids.len()
    }

    /// Adds a clause.
    pub(crate) fn add(&mut self, id: i64, rows: &[u32]) -> Result<(), NoMemory> {
        self.pool.extend_from_slice(rows)?;
        self.ends.push(self.pool.len())?;
        self.ids.push(id)?;
        Ok(())
    }

    /// The rows of the clause at a place.
    pub(crate) fn rows(&self, at: usize) -> &[u32] {
        let start = if at == 0 {
            0
        } else {
            self.ends.get(at - 1).copied().unwrap_or(0)
        };
        let end = self.ends.get(at).copied().unwrap_or(0);
        if start <= end && end <= self.pool.len() {
            &self.pool[start..end]
        } else {
            &[]
        }
    }

    /// The id of the clause at a place.
    pub(crate) fn id(&self, at: usize) -> i64 {
        self.ids.get(at).copied().unwrap_or(0)
    }
}
