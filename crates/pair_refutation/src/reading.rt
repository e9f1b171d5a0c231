//! The graph of a formula: its blocks' rows, with their variables and edges, and its pairs.

ghost use Rattle.std.specs.Prelude.{IfOk};
ghost use Rattle.cnf_form.specs.Literals.{literals};
ghost use Rattle.weak_pairs.specs.Peeling.{IsOutcome};
ghost use Rattle.pair_refutation.specs.Formulas.{AreGraphClauses, AreReadTo, IsPairFormula, IsReadTo};

use crate::edges::row_edges;
use crate::ends::edge_ends;
use crate::graph::{Graph, append_block, read_pairs};
use cnf_form::{Clause, Cnf};
use cqa_value::NoMemory;
use std::alloc::Global;
use weak_pairs::{Graph as BlockGraph, Outcome, choose};

/// Reads the graph of clauses.
fn read_clauses(alloc: Global, clauses: &[Clause], vars: u32) -> Result<Graph, NoMemory>
    requires { AreGraphClauses vars (literals clauses.now) }
    ensures { IfOk result (AreReadTo vars (literals clauses.now)) }
{
    let pairs = read_pairs(alloc, clauses)?;
    let mut var = Vec::new(alloc);
    let mut start = Vec::new(alloc);
    start.push(0)?;
    for clause in clauses {
        append_block(clause, &mut var, &mut start)?;
    }
    let blocks = (start.len() - 1) as u32;
    let edge = row_edges(alloc, &pairs, vars, &var)?;
    Ok(Graph {
        start,
        blocks,
        var,
        edge,
        pairs,
    })
}

/// Reads the graph of a formula.
///
/// # Errors
///
/// `NoMemory` where memory is refused.
pub fn read(alloc: Global, cnf: &Cnf) -> Result<Graph, NoMemory>
    requires { IsPairFormula cnf.now }
    ensures { IfOk result (IsReadTo cnf.now) }
{
    let clauses = cnf.clauses.as_slice();
    let graph = read_clauses(alloc, clauses, cnf.vars)?;
    Ok(graph)
}

/// Chooses a row of each block such that no two have one edge, or finds a block for which there is none.
///
/// # Errors
///
/// `NoMemory` where memory is refused.
pub fn outcome(alloc: Global, cnf: &Cnf, graph: &Graph) -> Result<Outcome, NoMemory>
    requires { IsReadTo cnf.now graph.now }
    ensures { IfOk result (IsOutcome graph.now.start.items graph.now.edge.items) }
{
    let ends = edge_ends(
        alloc,
        &graph.start,
        &graph.edge,
        graph.blocks,
        cnf.vars as usize + 1,
    )?;
    let blocks = BlockGraph {
        start: &graph.start,
        edge: &graph.edge,
        ends: &ends,
        blocks: graph.blocks,
    };
    choose(alloc, &blocks)
}
