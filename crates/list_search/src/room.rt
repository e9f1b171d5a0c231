//! Room for one formula after the other, in one pool of literals.
//! It is used again for each, so that a small formula takes no memory of its own.

ghost use Rattle.std.specs.Prelude.{◌≡◌, [], IfOk, map};
ghost use Rattle.row_lists.specs.Clauses.{positive};
ghost use Rattle.row_lists.specs.Spans.{numbers_in};

use cnf_form::{Lit, Truth};
use cqa_value::NoMemory;
use flat_formula::FlatFormula;
use row_lists::fill_block;
use row_lists::numbering::Numbering;
use std::alloc::Global;

/// Room for one formula after the other.
pub struct Room {
    pub formula: FlatFormula,
    pub lits: Vec<Lit>,
    pub numbers: Vec<u32>,
    pub values: Vec<Truth>,
}

impl Drop for Room {
    fn drop(self) {
        let Room {
            formula: _,
            lits: _,
            numbers: _,
            values: _,
        } = self;
    }
}

impl Room {
    /// Room in which nothing is yet.
    pub fn new(alloc: Global) -> Room {
        Room {
            formula: FlatFormula::new(alloc),
            lits: Vec::new(alloc),
            numbers: Vec::new(alloc),
            values: Vec::new(alloc),
        }
    }
}

/// Adds the clause of each block.
///
/// # Errors
///
/// `NoMemory` where memory is refused.
pub fn pool_blocks(
    blocks: &Numbering,
    lits: &mut Vec<Lit>,
    formula: &mut FlatFormula,
) -> Result<(), NoMemory>
    requires { formula.old ≡ [] }
    ensures { IfOk result (λ done. formula.new ≡ map (map positive) (map numbers_in blocks.now.spans)) }
{
    for span in blocks.spans.as_slice() {
        lits.clear();
        fill_block(span, lits)?;
        formula.add(lits.as_slice())?;
    }
    Ok(())
}

/// So many witnesses or lists may there be for a formula that is looked at without the solver.
const FEW: usize = 64;

/// Blocks with more rows than so many times those of the lists are wide.
const WIDE: usize = 4;

/// Whether a formula of so many lists, which have so many rows, is small where so many rows of their blocks are variables. Where
/// most of these are in no list it isn't, and many formulas may have a list through the same wide block: its rows must not be gone
/// over for each of them.
pub fn is_small(vars: u32, lists: usize, rows: usize) -> bool {
    lists <= FEW && vars as usize <= rows.saturating_mul(WIDE)
}
