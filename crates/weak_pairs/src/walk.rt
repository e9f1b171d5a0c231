//! Walks from block to block: where each block has a row or two free edges, all can take rows.

ghost use Rattle.std.specs.Prelude.{slice_index};
ghost use Rattle.weak_pairs.specs.Peeling.{AreChosen, HasFreeEdge, In, IsBlockNumber, IsFreeEdge};
ghost use Rattle.weak_pairs.specs.States.{AllSettled, HasWalked, IsMatching};

use crate::graph::Graph;
use crate::matching::Matching;

impl Matching {
    /// A row of a block whose edge is free.
    fn free_row(&self, graph: &Graph<'_>, at: u32) -> u32
        requires matching { IsMatching graph.now self.now }
        requires block { IsBlockNumber graph.now.start.now at }
        requires one { HasFreeEdge graph.now.start.now graph.now.edge.now self.now.taken.items at }
        ensures row { In graph.now.start.now at result }
        ensures free { IsFreeEdge self.now.taken.items (slice_index graph.now.edge.now result) }
    {
        let first = graph.start[at as usize];
        for row in first..graph.start[at as usize + 1] {
            if !self.is_taken(graph.edge[row as usize]) {
                return row;
            }
        }
        first
    }

    /// Lets blocks take rows, from this one on, until one is met that has a row.
    fn walk(&mut self, graph: &Graph<'_>, first: u32)
        requires matching { IsMatching graph.now self.old }
        requires block { IsBlockNumber graph.now.start.now first }
        requires settled { AllSettled graph.now self.old }
        ensures { HasWalked graph.now self.old self.new first }
    {
        let mut at = first;
        'walk: while self.is_open(at) {
            let row = self.free_row(graph, at);
            match self.take(graph, at, row) {
                None => return,
                Some(next) => at = next,
            }
        }
    }

    /// Lets each block take a row.
    pub(crate) fn serve(&mut self, graph: &Graph<'_>)
        requires matching { IsMatching graph.now self.old }
        requires settled { AllSettled graph.now self.old }
        ensures { AreChosen graph.now.start.now graph.now.edge.now self.new.own.items }
    {
        for v in 0..graph.blocks {
            self.walk(graph, v);
        }
    }
}
