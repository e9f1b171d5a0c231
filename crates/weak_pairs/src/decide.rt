//! Deciding numbered rows.
//! Edges are numbered, their ends found, and a row is chosen of each block, all in a time linear in the rows, as long as the
//! hashes of their values spread.

ghost use Rattle.std.specs.Prelude.{IfOk};
ghost use Rattle.weak_pairs.specs.Digests.{lists_in};
ghost use Rattle.weak_pairs.specs.Outcomes.{IsPairDecision, TellsCertainty};

use crate::chains::edge_numbers;
use crate::graph::Graph;
use crate::layout::edge_ends;
use crate::outcome::{Outcome, choose, is_blocked};
use crate::rows::NumberedRows;
use cqa_value::NoMemory;
use std::alloc::Global;

/// What is decided of a row: it is certain, or these rows, one of each block, are kept in a repair without a witness of it.
#[derive(Drop)]
pub enum Decision {
    Certain,
    Rejected(Vec<Option<u32>>),
}

/// `Certain` where some block is left without an edge. Else the row that each
/// block keeps in a repair without a witness.
///
/// # Errors
///
/// `NoMemory` where memory is refused.
pub fn decide_rows(alloc: Global, rows: &NumberedRows<'_, '_>) -> Result<Decision, NoMemory>
    ensures { IfOk result (IsPairDecision (lists_in rows.now.lists.now.form) rows.now.start.now) }
{
    let (edge, count) = edge_numbers(alloc, rows.lists)?;
    let ends = edge_ends(alloc, rows.start, &edge, rows.blocks, rows.split, count)?;
    let graph = Graph {
        start: rows.start,
        edge: &edge,
        ends: &ends,
        blocks: rows.blocks,
    };
    match choose(alloc, &graph)? {
        Outcome::Blocked(_, _) => Ok(Decision::Certain),
        Outcome::Chosen(own) => Ok(Decision::Rejected(own)),
    }
}

/// Whether some block is left without an edge, so that the row is certain. No rows are looked for where none is.
///
/// # Errors
///
/// `NoMemory` where memory is refused.
pub fn are_certain(alloc: Global, rows: &NumberedRows<'_, '_>) -> Result<bool, NoMemory>
    ensures { IfOk result (TellsCertainty (lists_in rows.now.lists.now.form) rows.now.start.now) }
{
    let (edge, count) = edge_numbers(alloc, rows.lists)?;
    let ends = edge_ends(alloc, rows.start, &edge, rows.blocks, rows.split, count)?;
    let graph = Graph {
        start: rows.start,
        edge: &edge,
        ends: &ends,
        blocks: rows.blocks,
    };
    let blocked = is_blocked(alloc, &graph)?;
    Ok(blocked)
}
