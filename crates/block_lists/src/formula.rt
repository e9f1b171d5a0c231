//! The formula of a group: each row of each block is a variable, one clause for each block, and one for each list.

ghost use Rattle.std.specs.Prelude.{IfOk};
ghost use Rattle.block_lists.specs.Groups.{IsGroup};
ghost use Rattle.block_lists.specs.Formulas.{IsGroupFormula};

use crate::clauses::{add_blocks, add_lists};
use crate::numbers::{fill_bases, total};
use block_choices::Lists;
use cnf_form::Cnf;
use cqa_value::{Items, NoMemory};
use std::alloc::Global;

/// The formula of a group of lists of rows of blocks, which are told by their sizes.
///
/// # Errors
///
/// `NoMemory` where memory is refused.
pub fn formula_of(alloc: Global, sizes: &[u32], lists: &Lists) -> Result<Cnf, NoMemory>
    requires { IsGroup sizes.now lists.now }
    ensures { IfOk result (IsGroupFormula sizes.now lists.now) }
{
    let mut bases = Vec::with_capacity(alloc, sizes.len())?;
    fill_bases(sizes, &mut bases)?;
    let mut clauses = Vec::with_capacity(alloc, sizes.len() + lists.len())?;
    add_blocks(alloc, sizes, &mut clauses)?;
    add_lists(alloc, bases.as_slice(), lists, &mut clauses)?;
    Ok(Cnf {
        vars: total(sizes),
        clauses: Items::from_vec(clauses),
    })
}
