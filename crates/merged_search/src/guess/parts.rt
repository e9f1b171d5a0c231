//! The clauses of a formula by their form: blocks, of which a row is kept, rows that are not kept, and pairs of rows.

use cnf_form::{Clause, Lit};
use cqa_value::NoMemory;
use std::alloc::Global;

/// The id of the clause at a place, as hints have it.
pub(crate) fn id_at(place: usize) -> i64 {
    i64::try_from(place).unwrap_or(0).saturating_add(1)
}

/// The place of the clause of an id, as hints have it.
pub(crate) fn place_of(id: i64) -> usize {
    usize::try_from(id).unwrap_or(0).saturating_sub(1)
}

/// Two rows of which one isn't kept, with the id of the clause that says so.
#[derive(Clone, Copy)]
pub(crate) struct Pair {
    pub one: u32,
    pub other: u32,
    pub id: i64,
}

/// What a clause says.
#[derive(Clone, Copy)]
enum Form {
    /// One of its rows is kept.
    Block,
    /// A row isn't kept.
    Excluded(u32),
    /// One of two rows isn't kept.
    Pair(u32, u32),
    Other,
}

fn form_of(clause: &[Lit]) -> Form {
    if clause.iter().all(|lit| lit.positive) {
        return Form::Block;
    }
    if clause.iter().any(|lit| lit.positive) {
        return Form::Other;
    }
    match clause.len() {
        1 => Form::Excluded(clause[0].var),
        2 => Form::Pair(clause[0].var, clause[1].var),
        _ => Form::Other,
    }
}

/// The clauses of a formula.
#[derive(Drop)]
pub(crate) struct Parts {
    /// The ids of the blocks.
    pub blocks: Vec<i64>,
    /// Of each row, the id of the clause that it isn't kept; 0 where there is none.
    pub excluded: Vec<i64>,
    pub pairs: Vec<Pair>,
}

impl Parts {
    /// No clause over so many rows.
    pub(crate) fn new(alloc: Global, vars: u32) -> Result<Parts, NoMemory> {
        Ok(Parts {
            blocks: Vec::new(alloc),
            excluded: vec![in alloc; 0; vars as usize + 1]?,
            pairs: Vec::new(alloc),
        })
    }

    /// Takes a clause in, and tells whether it has one of the forms.
    fn take(&mut self, clause: &[Lit], id: i64) -> Result<bool, NoMemory> {
        match form_of(clause) {
            Form::Block => self.blocks.push(id)?,
            Form::Excluded(var) => {
                if let Some(excluded) = self.excluded.get_mut(var as usize) {
                    *excluded = id;
                }
            }
            Form::Pair(one, other) => self.pairs.push(Pair { one, other, id })?,
            Form::Other => return Ok(false),
        }
        Ok(true)
    }

    /// Takes all clauses in, and tells whether each has one of the forms.
    pub(crate) fn take_all(&mut self, clauses: &[Clause]) -> Result<bool, NoMemory> {
        for (place, clause) in clauses.iter().enumerate() {
            if !self.take(clause.lits.as_slice(), id_at(place))? {
                return Ok(false);
            }
        }
        Ok(true)
    }
}
