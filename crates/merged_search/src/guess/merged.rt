//! The formula over groups: a clause for each block, of the groups of its rows.

use crate::guess::groups::Groups;
use crate::guess::parts::place_of;
use crate::guess::rows::RowClauses;
use cnf_form::{Clause, Cnf, Lit};
use cqa_value::{Items, NoMemory};
use std::alloc::Global;

/// A formula over groups.
#[derive(Drop)]
pub(crate) struct Merged {
    pub cnf: Cnf,
    /// The block of each clause.
    pub rows: RowClauses,
}

/// The rows of a block, with the literals of the groups of those that may be kept.
#[derive(Drop)]
struct Block {
    rows: Vec<u32>,
    lits: Vec<Lit>,
}

impl Block {
    /// Takes in the rows of a clause, and tells whether each that may be kept is in a group: else one can be kept whatever the
    /// others are.
    fn take(&mut self, clause: &[Lit], groups: &Groups) -> Result<bool, NoMemory> {
        self.rows.clear();
        self.lits.clear();
        for lit in clause {
            self.rows.push(lit.var)?;
            let place = groups.place(lit.var);
            if place.group != 0 {
                self.lits.push(place.lit())?;
            } else if groups.exclusion(lit.var) == 0 {
                return Ok(false);
            }
        }
        Ok(true)
    }

    /// The literals of the groups in rising order, each once; none where both sides of a group are among them.
    fn merged(&mut self, alloc: Global) -> Result<Option<Items<Lit>>, NoMemory> {
        self.lits
            .sort_unstable_by(|one, other| one.var.cmp(&other.var));
        let mut merged = Items::with_capacity(alloc, self.lits.len())?;
        if once_each(self.lits.as_slice(), &mut merged)? {
            Ok(Some(merged))
        } else {
            Ok(None)
        }
    }
}

/// Appends the first literal of each variable, and tells whether the others are the same.
fn once_each(lits: &[Lit], once: &mut Items<Lit>) -> Result<bool, NoMemory> {
    let mut last = Lit {
        var: 0,
        positive: true,
    };
    for lit in lits {
        if lit.var != last.var {
            once.push(*lit)?;
            last = *lit;
        } else if lit.positive != last.positive {
            return Ok(false);
        }
    }
    Ok(true)
}

/// Adds the clause of a block, unless it holds in any case.
fn add_block(
    alloc: Global,
    block: &mut Block,
    id: i64,
    clauses: &mut Items<Clause>,
    rows: &mut RowClauses,
) -> Result<(), NoMemory> {
    if let Some(lits) = block.merged(alloc)? {
        clauses.push(Clause { lits })?;
        rows.add(id, block.rows.as_slice())?;
    }
    Ok(())
}

/// Adds the clauses of all blocks.
fn add_all(
    alloc: Global,
    cnf: &Cnf,
    groups: &Groups,
    clauses: &mut Items<Clause>,
    rows: &mut RowClauses,
) -> Result<(), NoMemory> {
    let mut block = Block {
        rows: Vec::new(alloc),
        lits: Vec::new(alloc),
    };
    for id in &groups.parts.blocks {
        let Some(clause) = cnf.clauses.as_slice().get(place_of(*id)) else {
            continue;
        };
        if block.take(clause.lits.as_slice(), groups)? {
            add_block(alloc, &mut block, *id, clauses, rows)?;
        }
    }
    Ok(())
}

/// The formula over the groups of a formula's rows.
pub(crate) fn merge(alloc: Global, cnf: &Cnf, groups: &Groups) -> Result<Merged, NoMemory> {
    let mut clauses = Items::new(alloc);
    let mut rows = RowClauses::new(alloc);
    add_all(alloc, cnf, groups, &mut clauses, &mut rows)?;
    Ok(Merged {
        cnf: Cnf {
            vars: groups.len(),
            clauses,
        },
        rows,
    })
}
