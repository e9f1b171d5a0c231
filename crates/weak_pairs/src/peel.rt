//! Peeling a graph: a block with one free edge takes its row, and then the block at the edge's other end is looked at.

ghost use Rattle.std.specs.Prelude.{◌≡◌, ◌+◌, IfOk, OnOk, None, replicate};
ghost use Rattle.weak_pairs.specs.Peeling.{AreFirst, IsBlockNumber};
ghost use Rattle.weak_pairs.specs.States.{AreSettled, IsLeft, IsUnmatched, IsPeeledTo, IsPeeling, IsSeenTo, IsStep};

use crate::graph::Graph;
use crate::matching::Matching;
use cqa_value::NoMemory;
use std::alloc::Global;

/// How far a block has been looked at: a row whose edge may be free, and the first row that has not been looked at.
#[derive(Clone, Copy)]
pub struct Watch {
    pub keep: u32,
    pub next: u32,
}

/// What is left to a block: nothing, the edge of this row alone, or two edges.
#[derive(Clone, Copy)]
pub enum Left {
    Zero,
    One(u32),
    Two,
}

/// What a forced step came to: a block without a free edge, an end, or the next block to look at.
#[derive(Clone, Copy)]
pub enum Step {
    Stuck,
    Done,
    Go(u32),
}

/// Rows that blocks were forced to take.
#[derive(Drop)]
pub struct Peeling {
    pub matching: Matching,
    /// How far each block has been looked at.
    pub watch: Vec<Watch>,
    /// The rows that were taken, one after the other.
    pub order: Vec<u32>,
}

/// Where each block begins to be looked at.
fn first_watches(alloc: Global, graph: &Graph<'_>) -> Result<Vec<Watch>, NoMemory>
    ensures { IfOk result (λ watches. AreFirst graph.now.start.now graph.now.blocks watches.items) }
{
    let mut watches = Vec::with_capacity(alloc, graph.blocks as usize)?;
    for v in 0..graph.blocks {
        let keep = graph.start[v as usize];
        watches.push(Watch { keep, next: keep })?;
    }
    Ok(watches)
}

/// No block has a row.
fn no_rows(alloc: Global, blocks: u32) -> Result<Vec<Option<u32>>, NoMemory>
    ensures { IfOk result (λ own. own.items ≡ replicate blocks None) }
{
    Ok(vec![in alloc; None; blocks as usize]?)
}

impl Peeling {
    /// Nothing was taken yet.
    pub(crate) fn new(alloc: Global, graph: &Graph<'_>) -> Result<Peeling, NoMemory>
        ensures { IfOk result (IsPeeling graph.now) }
    {
        let own = no_rows(alloc, graph.blocks)?;
        let taken = vec![in alloc; false; graph.ends.len()]?;
        let watch = first_watches(alloc, graph)?;
        Ok(Peeling {
            matching: Matching { own, taken },
            watch,
            order: Vec::new(alloc),
        })
    }

    /// Looks at a block's rows until two free edges are found: what is left to it, and how far it has been looked at.
    fn look(&self, graph: &Graph<'_>, at: u32) -> (Left, Watch)
        requires peeling { IsPeeling graph.now self.now }
        requires block { IsBlockNumber graph.now.start.now at }
        ensures left { IsLeft graph.now self.now.matching at result.0 }
        ensures seen { IsSeenTo graph.now self.now.matching at result.1 }
    {
        let end = graph.start[at as usize + 1];
        let watch = self.watch[at as usize];
        let mut keep = watch.keep;
        let mut next = watch.next;
        'scan: while next < end {
            let Some(row) = self.matching.kept(graph, keep, next) else {
                return (Left::Two, Watch { keep, next });
            };
            keep = row;
            next += 1;
        }
        if self.matching.is_taken(graph.edge[keep as usize]) {
            return (Left::Zero, Watch { keep, next });
        }
        (Left::One(keep), Watch { keep, next })
    }

    /// One step of peeling: where one edge is left to an open block, the block takes it.
    fn force(&mut self, graph: &Graph<'_>, at: u32) -> Result<Step, NoMemory>
        requires peeling { IsPeeling graph.now self.old }
        requires block { IsBlockNumber graph.now.start.now at }
        requires isopen { IsUnmatched self.old.matching at }
        ensures peeling { OnOk result (IsPeeling graph.now self.new) }
        ensures step { IfOk result (IsStep graph.now self.old self.new at) }
    {
        let (left, seen) = self.look(graph, at);
        self.watch[at as usize] = seen;
        match left {
            Left::Zero => Ok(Step::Stuck),
            Left::Two => Ok(Step::Done),
            Left::One(row) => {
                self.order.push(row)?;
                match self.matching.take(graph, at, row) {
                    None => Ok(Step::Done),
                    Some(next) => Ok(Step::Go(next)),
                }
            }
        }
    }

    /// Peels from a block on, until the next block has two edges left or none.
    fn chase(&mut self, graph: &Graph<'_>, first: u32) -> Result<Option<u32>, NoMemory>
        requires peeling { IsPeeling graph.now self.old }
        requires block { IsBlockNumber graph.now.start.now first }
        requires before { AreSettled graph.now self.old.matching first }
        ensures peeling { OnOk result (IsPeeling graph.now self.new) }
        ensures found { IfOk result (IsPeeledTo graph.now self.new (first + 1)) }
    {
        let mut at = first;
        'chase: while self.matching.is_open(at) {
            match self.force(graph, at)? {
                Step::Stuck => return Ok(Some(at)),
                Step::Done => return Ok(None),
                Step::Go(next) => at = next,
            }
        }
        Ok(None)
    }

    /// Lets each block take the one edge that is left to it, again and again. Answers a block to which none is left.
    pub(crate) fn peel(&mut self, graph: &Graph<'_>) -> Result<Option<u32>, NoMemory>
        requires { IsPeeling graph.now self.old }
        ensures peeling { OnOk result (IsPeeling graph.now self.new) }
        ensures found { IfOk result (IsPeeledTo graph.now self.new graph.now.blocks) }
    {
        for v in 0..graph.blocks {
            if let Some(root) = self.chase(graph, v)? {
                return Ok(Some(root));
            }
        }
        Ok(None)
    }
}
