//! The clauses of blocks and of lists, by the numbers of their rows. Each is made with exact room.

ghost use Rattle.std.specs.Prelude.{◌≡◌, ◌+◌, ◌++◌, ◌≤◌, [], IfOk, map, suc};
ghost use Rattle.std.specs.List.{range_with_len, sum};
ghost use Rattle.cnf_form.specs.Literals.{literals, negative, positive};
ghost use Rattle.block_lists.specs.declared.limits.TheConstants.{MOST_GROUP_ROWS};
ghost use Rattle.block_lists.specs.Formulas.{blocks_from};
ghost use Rattle.block_lists.specs.Numbers.{AddsLists, AreAllBasedOver, AreBasedOver, IsListClause};

use crate::numbers::{fill_numbers, order};
use block_choices::{BlockRow, Lists};
use cnf_form::{Clause, Lit};
use cqa_value::{Items, NoMemory};
use std::alloc::Global;

/// The clause of a block that has so many rows, behind so many of other blocks: one of its rows is chosen.
fn block_clause(alloc: Global, base: u32, size: u32) -> Result<Clause, NoMemory>
    requires { base + size ≤ MOST_GROUP_ROWS }
    ensures { IfOk result (λ clause. clause.lits ≡ map positive (range_with_len (suc base) size)) }
{
    let mut lits = Vec::with_capacity(alloc, size as usize)?;
    for at in 0..size {
        lits.push(Lit {
            var: base + 1 + at,
            positive: true,
        })?;
    }
    Ok(Clause {
        lits: Items::from_vec(lits),
    })
}

/// Adds the clause of each block.
///
/// # Errors
///
/// `NoMemory` where memory is refused.
pub fn add_blocks(alloc: Global, sizes: &[u32], clauses: &mut Vec<Clause>) -> Result<(), NoMemory>
    requires { sum sizes.now ≤ MOST_GROUP_ROWS }
    ensures { IfOk result (λ done. literals clauses.new.items ≡ literals clauses.old.items ++ map (map positive) (blocks_from 0 sizes.now)) }
{
    let mut base = 0;
    for size in sizes {
        clauses.push(block_clause(alloc, base, *size)?)?;
        base += *size;
    }
    Ok(())
}

/// Negative literals of numbers.
fn negatives(alloc: Global, numbers: &[u32]) -> Result<Clause, NoMemory>
    ensures { IfOk result (λ clause. clause.lits ≡ map negative numbers.now) }
{
    let mut lits = Vec::with_capacity(alloc, numbers.len())?;
    for number in numbers {
        lits.push(Lit {
            var: *number,
            positive: false,
        })?;
    }
    Ok(Clause {
        lits: Items::from_vec(lits),
    })
}

/// The clause of a list, by rising variable: not all of its rows are chosen. `numbers` is room for their numbers.
fn list_clause(
    alloc: Global,
    bases: &[u32],
    names: &[BlockRow],
    numbers: &mut Vec<u32>,
) -> Result<Clause, NoMemory>
    requires { AreBasedOver bases.now names.now }
    ensures { IfOk result (λ clause. IsListClause bases.now names.now clause.lits) }
{
    numbers.clear();
    fill_numbers(bases, names, numbers)?;
    order(numbers);
    negatives(alloc, numbers.as_slice())
}

/// Adds the clause of each list.
///
/// # Errors
///
/// `NoMemory` where memory is refused.
pub fn add_lists(
    alloc: Global,
    bases: &[u32],
    lists: &Lists,
    clauses: &mut Vec<Clause>,
) -> Result<(), NoMemory>
    requires { AreAllBasedOver bases.now lists.now }
    ensures { IfOk result (λ done. AddsLists bases.now lists.now (literals clauses.old.items) (literals clauses.new.items)) }
{
    let mut numbers = Vec::new(alloc);
    for at in 0..lists.len() {
        clauses.push(list_clause(alloc, bases, lists.list(at), &mut numbers)?)?;
    }
    Ok(())
}
