//! The formula of lists in one pool of literals, and what is found out of it without the solver.

ghost use Rattle.std.specs.Prelude.{IfOk};
ghost use Rattle.join_access.specs.Listing.{names_of};
ghost use Rattle.row_lists.specs.Encodings.{AddsLists, AreBlocksOf};
ghost use Rattle.row_lists.specs.Lists.{IsForced};
ghost use Rattle.list_search.specs.Finding.{FoundSays};
ghost use Rattle.list_search.specs.Looking.{AreClausesOf};

use crate::room::{Room, is_small, pool_blocks};
use cnf_form::Lit;
use cqa_value::NoMemory;
use flat_formula::{FlatFormula, Found, glance};
use row_lists::numbering::Numbering;
use row_lists::{RowLists, fill_list};

/// Adds the clause of each list.
fn pool_lists(
    lists: &RowLists<'_>,
    blocks: &Numbering,
    numbers: &mut Vec<u32>,
    lits: &mut Vec<Lit>,
    formula: &mut FlatFormula,
) -> Result<(), NoMemory>
    requires { AreBlocksOf lists.now.db.now lists.now.frame.now.tables (names_of lists.now.lists.now) blocks.now }
    ensures { IfOk result (λ done. AddsLists lists.now.frame.now.tables blocks.now.spans (names_of lists.now.lists.now) formula.old formula.new) }
{
    for list in lists.lists {
        lits.clear();
        fill_list(lists, blocks, list.rows.as_slice(), numbers, lits)?;
        formula.add(lits.as_slice())?;
    }
    Ok(())
}

/// Puts the formula of lists over numbered blocks into a room.
fn pool_formula(lists: &RowLists<'_>, blocks: &Numbering, room: &mut Room) -> Result<(), NoMemory>
    requires { AreBlocksOf lists.now.db.now lists.now.frame.now.tables (names_of lists.now.lists.now) blocks.now }
    ensures { IfOk result (λ done. AreClausesOf lists.now.frame.now.tables blocks.now.spans (names_of lists.now.lists.now) room.new.formula) }
{
    room.formula.clear();
    pool_blocks(blocks, &mut room.lits, &mut room.formula)?;
    pool_lists(
        lists,
        blocks,
        &mut room.numbers,
        &mut room.lits,
        &mut room.formula,
    )
}

/// What is found out of lists by the formula over their blocks, which are numbered, without the solver. With a budget of 0 there is
/// no guess either, so nothing is looked at, nor is a formula that isn't small.
///
/// # Errors
///
/// `NoMemory` where memory is refused.
pub fn first_look(
    lists: &RowLists<'_>,
    blocks: &Numbering,
    budget: u32,
    room: &mut Room,
) -> Result<Found, NoMemory>
    requires { AreBlocksOf lists.now.db.now lists.now.frame.now.tables (names_of lists.now.lists.now) blocks.now }
    ensures { IfOk result (FoundSays (IsForced lists.now.db.now (names_of lists.now.lists.now))) }
{
    let count = lists.lists.len();
    let rows = count.saturating_mul(lists.frame.tables.len());
    if budget == 0 || !is_small(blocks.vars, count, rows) {
        return Ok(Found::Unclear);
    }
    pool_formula(lists, blocks, room)?;
    glance(&room.formula, blocks.vars, &mut room.values)
}
