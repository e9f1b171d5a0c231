//! Choosing a row of each block of a graph such that no two have one edge, or finding that there is no such choice.
//! The graph is peeled, and then the blocks without a row walk.

ghost use Rattle.std.specs.Prelude.{IfOk, MatchOption};
ghost use Rattle.weak_pairs.specs.Peeling.{AreBlocked, AreChosen, HasOutcome, IsOutcome};
ghost use Rattle.weak_pairs.specs.States.{IsPeeling};

use crate::graph::Graph;
use crate::matching::Matching;
use crate::peel::Peeling;
use cqa_value::NoMemory;
use std::alloc::Global;

/// What comes of choosing: the row of each block, or the rows that were forced, in order, and a block to which no edge is left.
#[derive(Drop)]
pub enum Outcome {
    Chosen(Vec<Option<u32>>),
    Blocked(Vec<u32>, u32),
}

impl Peeling {
    /// Peels, and then lets each block take a row. Answers a block to which no edge is left.
    fn finish(&mut self, graph: &Graph<'_>) -> Result<Option<u32>, NoMemory>
        requires { IsPeeling graph.now self.old }
        ensures { IfOk result (λ found. MatchOption found (AreChosen graph.now.start.now graph.now.edge.now self.new.matching.own.items)
            (AreBlocked graph.now.start.now graph.now.edge.now self.new.order.items)) }
    {
        if let Some(root) = self.peel(graph)? {
            return Ok(Some(root));
        }
        self.matching.serve(graph);
        Ok(None)
    }
}

/// Chooses a row of each block such that no two have one edge, or finds a block for which there is none.
///
/// # Errors
///
/// `NoMemory` where memory is refused.
pub fn choose(alloc: Global, graph: &Graph<'_>) -> Result<Outcome, NoMemory>
    ensures { IfOk result (IsOutcome graph.now.start.now graph.now.edge.now) }
{
    let mut peeling = Peeling::new(alloc, graph)?;
    let found = peeling.finish(graph);
    let Peeling {
        matching,
        watch,
        order,
    } = peeling;
    let Matching { own, taken } = matching;
    match found? {
        Some(root) => Ok(Outcome::Blocked(order, root)),
        None => Ok(Outcome::Chosen(own)),
    }
}

/// Whether a block is left without an edge: else rows can be chosen, but none are looked for.
///
/// # Errors
///
/// `NoMemory` where memory is refused.
pub fn is_blocked(alloc: Global, graph: &Graph<'_>) -> Result<bool, NoMemory>
    ensures { IfOk result (HasOutcome graph.now.start.now graph.now.edge.now) }
{
    let mut peeling = Peeling::new(alloc, graph)?;
    let found = peeling.peel(graph);
    drop(peeling);
    match found? {
        Some(_) => Ok(true),
        None => Ok(false),
    }
}
