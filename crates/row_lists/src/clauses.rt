//! The clauses of blocks and of lists, by the numbers of their rows.
//! Each is made with exact room.

ghost use Rattle.std.specs.Prelude.{◌≡◌, ◌↔◌, ◌+◌, ◌++◌, ◌<◌, ◌^◌, ℕ, [], Contains, IfOk, IsTrue, map};
ghost use Rattle.std.specs.Ordering.{nat_cmp};
ghost use Rattle.std.specs.List.Sorted.{IsStrictlySortedBy};
ghost use Rattle.cnf_form.specs.Literals.{literals};
ghost use Rattle.join_access.specs.Listing.{names_of};
ghost use Rattle.row_lists.specs.Clauses.{positive, negative};
ghost use Rattle.row_lists.specs.Spans.{numbers_in};
ghost use Rattle.row_lists.specs.Encodings.{AddsLists, AreBlocksOf, AreNumbersOfNames, IsListClause};

use crate::lists_over::RowLists;
use crate::numbering::{Numbering, number};
use crate::span::Span;
use cnf_form::{Clause, Lit};
use cqa_model::RowId;
use cqa_value::{Items, NoMemory};
use join_access::{Witness, put_in_order};
use std::alloc::Global;

/// Puts the literals of a block's clause into a list: one of its rows is kept.
///
/// # Errors
///
/// `NoMemory` where memory is refused.
pub fn fill_block(span: &Span, lits: &mut Vec<Lit>) -> Result<(), NoMemory>
    requires none { lits.old.items ≡ [] }
    requires small { span.now.base + span.now.count < 2 ^ 32 }
    ensures { IfOk result (λ done. lits.new.items ≡ map positive (numbers_in span.now)) }
{
    for at in 0..span.count {
        lits.push(Lit {
            var: span.base + 1 + at,
            positive: true,
        })?;
    }
    Ok(())
}

/// The clause of a block.
fn block_clause(alloc: Global, span: &Span) -> Result<Clause, NoMemory>
    requires { span.now.base + span.now.count < 2 ^ 32 }
    ensures { IfOk result (λ clause. clause.lits ≡ map positive (numbers_in span.now)) }
{
    let mut lits = Vec::with_capacity(alloc, span.count as usize)?;
    fill_block(span, &mut lits)?;
    Ok(Clause {
        lits: Items::from_vec(lits),
    })
}

/// Adds the clause of each block.
///
/// # Errors
///
/// `NoMemory` where memory is refused.
pub fn add_blocks(
    alloc: Global,
    blocks: &Numbering,
    clauses: &mut Vec<Clause>,
) -> Result<(), NoMemory>
    ensures { IfOk result (λ done. literals clauses.new.items ≡ literals clauses.old.items ++ map (map positive) (map numbers_in blocks.now.spans)) }
{
    for span in blocks.spans.as_slice() {
        clauses.push(block_clause(alloc, span)?)?;
    }
    Ok(())
}

/// Whether numbers rise.
fn rise(numbers: &[u32]) -> bool
    ensures { IsTrue result → IsStrictlySortedBy nat_cmp numbers.now }
{
    for at in 1..numbers.len() {
        if numbers[at - 1] >= numbers[at] {
            return false;
        }
    }
    true
}

/// Puts numbers in order, each once; where they rise already, they are only looked through.
fn order(numbers: &mut Vec<u32>)
    ensures rises { IsStrictlySortedBy nat_cmp numbers.new.items }
    ensures same { (n : ℕ) → Contains numbers.new.items n ↔ Contains numbers.old.items n }
{
    if !rise(numbers.as_slice()) {
        put_in_order(numbers);
    }
}

/// Puts the numbers of a list's rows into an empty list, as the names come.
fn fill_numbers(
    lists: &RowLists<'_>,
    blocks: &Numbering,
    names: &[RowId],
    numbers: &mut Vec<u32>,
) -> Result<(), NoMemory>
    requires blocks { AreBlocksOf lists.now.db.now lists.now.frame.now.tables (names_of lists.now.lists.now) blocks.now }
    requires named { Contains (names_of lists.now.lists.now) names.now }
    requires none { numbers.old.items ≡ [] }
    ensures { IfOk result (λ done. AreNumbersOfNames lists.now.frame.now.tables blocks.now.spans names.now numbers.new.items) }
{
    let slots = lists.frame.slots.as_slice();
    for id in names {
        numbers.push(number(blocks, slots[id.table as usize], id.place))?;
    }
    Ok(())
}

/// Puts negative literals of numbers into an empty list.
fn fill_negative(numbers: &[u32], lits: &mut Vec<Lit>) -> Result<(), NoMemory>
    requires { lits.old.items ≡ [] }
    ensures { IfOk result (λ done. lits.new.items ≡ map negative numbers.now) }
{
    for number in numbers {
        lits.push(Lit {
            var: *number,
            positive: false,
        })?;
    }
    Ok(())
}

/// Puts the literals of a list's clause, by rising variable, into an empty list: not all of its rows are kept. `numbers` is
/// room for their numbers.
///
/// # Errors
///
/// `NoMemory` where memory is refused.
pub fn fill_list(
    lists: &RowLists<'_>,
    blocks: &Numbering,
    names: &[RowId],
    numbers: &mut Vec<u32>,
    lits: &mut Vec<Lit>,
) -> Result<(), NoMemory>
    requires blocks { AreBlocksOf lists.now.db.now lists.now.frame.now.tables (names_of lists.now.lists.now) blocks.now }
    requires named { Contains (names_of lists.now.lists.now) names.now }
    requires none { lits.old.items ≡ [] }
    ensures { IfOk result (λ done. IsListClause lists.now.frame.now.tables blocks.now.spans names.now lits.new.items) }
{
    numbers.clear();
    fill_numbers(lists, blocks, names, numbers)?;
    order(numbers);
    fill_negative(numbers.as_slice(), lits)
}

/// The clause of a list.
fn list_clause(
    alloc: Global,
    lists: &RowLists<'_>,
    blocks: &Numbering,
    names: &[RowId],
    numbers: &mut Vec<u32>,
) -> Result<Clause, NoMemory>
    requires blocks { AreBlocksOf lists.now.db.now lists.now.frame.now.tables (names_of lists.now.lists.now) blocks.now }
    requires named { Contains (names_of lists.now.lists.now) names.now }
    ensures { IfOk result (λ clause. IsListClause lists.now.frame.now.tables blocks.now.spans names.now clause.lits) }
{
    let mut lits = Vec::with_capacity(alloc, names.len())?;
    fill_list(lists, blocks, names, numbers, &mut lits)?;
    Ok(Clause {
        lits: Items::from_vec(lits),
    })
}

/// Adds the clause of each list.
///
/// # Errors
///
/// `NoMemory` where memory is refused.
pub(crate) fn add_lists(
    alloc: Global,
    lists: &RowLists<'_>,
    blocks: &Numbering,
    clauses: &mut Vec<Clause>,
) -> Result<(), NoMemory>
    requires { AreBlocksOf lists.now.db.now lists.now.frame.now.tables (names_of lists.now.lists.now) blocks.now }
    ensures { IfOk result (λ done. AddsLists lists.now.frame.now.tables blocks.now.spans (names_of lists.now.lists.now) (literals clauses.old.items) (literals clauses.new.items)) }
{
    let mut numbers = Vec::new(alloc);
    for list in lists.lists {
        clauses.push(list_clause(alloc, lists, blocks, list.rows.as_slice(), &mut numbers)?)?;
    }
    Ok(())
}
