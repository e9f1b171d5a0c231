//! The formula of lists, with its variables numbered from 1: one clause for each relevant block, and one for each list.
//! Beside it stand the names of the rows that are the variables.

ghost use Rattle.std.specs.Prelude.{◌≡◌, ◌+◌, ◌++◌, ◌<◌, ◌≤◌, IfOk, map};
ghost use Rattle.std.specs.List.{range_with_len};
ghost use Rattle.cqa_model.specs.declared.limits.TheConstants.{MOST_ROWS};
ghost use Rattle.cnf_form.specs.Literals.{literals};
ghost use Rattle.join_access.specs.Listing.{names_of};
ghost use Rattle.row_lists.specs.Clauses.{positive};
ghost use Rattle.row_lists.specs.Formulas.{name_in};
ghost use Rattle.row_lists.specs.Lists.{name};
ghost use Rattle.row_lists.specs.Spans.{numbers_in, variables_of_spans};
ghost use Rattle.row_lists.specs.Encodings.{AddsLists, AreBlocksOf, IsListEncoded};

use crate::clauses::{add_blocks, add_lists};
use crate::lists_over::RowLists;
use crate::numbering::Numbering;
use crate::relevant::relevant_blocks;
use crate::span::Span;
use cnf_form::{Clause, Cnf};
use cqa_model::RowId;
use cqa_value::{Items, NoMemory};
use std::alloc::Global;

/// A formula, and the row of each variable: that of variable i + 1 is `rows[i]`.
#[derive(Debug, Drop)]
pub struct Encoded {
    pub cnf: Cnf,
    pub rows: Items<RowId>,
}

/// Adds the names of a block's rows, which are rows of a table.
///
/// # Errors
///
/// `NoMemory` where memory is refused.
fn add_names(table: u32, span: &Span, rows: &mut Vec<RowId>) -> Result<(), NoMemory>
    requires { span.now.start + span.now.count ≤ MOST_ROWS }
    ensures { IfOk result (λ done. rows.new.items ≡ rows.old.items ++ map (name table) (range_with_len span.now.start span.now.count)) }
{
    for at in 0..span.count {
        rows.push(RowId {
            table,
            place: span.start + at,
        })?;
    }
    Ok(())
}

/// The names of the rows of numbered blocks.
fn names(alloc: Global, lists: &RowLists<'_>, blocks: &Numbering) -> Result<Items<RowId>, NoMemory>
    requires { AreBlocksOf lists.now.db.now lists.now.frame.now.tables (names_of lists.now.lists.now) blocks.now }
    ensures { IfOk result (λ rows. rows ≡ map (name_in lists.now.frame.now.tables) (variables_of_spans blocks.now.spans)) }
{
    let mut rows = Vec::with_capacity(alloc, blocks.vars as usize)?;
    for span in blocks.spans.as_slice() {
        add_names(lists.table(span.slot as usize), span, &mut rows)?;
    }
    Ok(Items::from_vec(rows))
}

/// The clauses of blocks and of lists.
fn all_clauses(
    alloc: Global,
    lists: &RowLists<'_>,
    blocks: &Numbering,
) -> Result<Items<Clause>, NoMemory>
    requires { AreBlocksOf lists.now.db.now lists.now.frame.now.tables (names_of lists.now.lists.now) blocks.now }
    ensures { IfOk result (λ clauses. AddsLists lists.now.frame.now.tables blocks.now.spans (names_of lists.now.lists.now) (map (map positive) (map numbers_in blocks.now.spans)) (literals clauses)) }
{
    let mut clauses = Vec::with_capacity(alloc, blocks.spans.as_slice().len() + lists.lists.len())?;
    add_blocks(alloc, blocks, &mut clauses)?;
    add_lists(alloc, lists, blocks, &mut clauses)?;
    Ok(Items::from_vec(clauses))
}

/// The formula of lists over their relevant blocks, which are numbered.
///
/// # Errors
///
/// `NoMemory` where memory is refused.
pub fn formula_over(
    alloc: Global,
    lists: &RowLists<'_>,
    blocks: &Numbering,
) -> Result<Encoded, NoMemory>
    requires { AreBlocksOf lists.now.db.now lists.now.frame.now.tables (names_of lists.now.lists.now) blocks.now }
    ensures { IfOk result (IsListEncoded lists.now.db.now lists.now.frame.now.tables (names_of lists.now.lists.now)) }
{
    let rows = names(alloc, lists, blocks)?;
    let clauses = all_clauses(alloc, lists, blocks)?;
    let cnf = Cnf {
        vars: blocks.vars,
        clauses,
    };
    Ok(Encoded { cnf, rows })
}

/// The formula of lists.
///
/// # Errors
///
/// `NoMemory` where memory is refused.
pub fn encode(alloc: Global, lists: &RowLists<'_>) -> Result<Encoded, NoMemory>
    ensures { IfOk result (IsListEncoded lists.now.db.now lists.now.frame.now.tables (names_of lists.now.lists.now)) }
{
    let blocks = relevant_blocks(alloc, lists)?;
    let encoded = formula_over(alloc, lists, &blocks)?;
    Ok(encoded)
}
