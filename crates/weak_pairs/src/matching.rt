//! Matchings of a graph's blocks: rows that blocks took, no two of them with one edge.

ghost use Rattle.std.specs.Prelude.{◌≡◌, ◌↔◌, ◌<◌, IsTrue, length, slice_index, slice_index_or, false};
ghost use Rattle.weak_pairs.specs.Peeling.{In, IsBlockNumber, IsFreeEdge};
ghost use Rattle.weak_pairs.specs.States.{HasTaken, IsKept, IsMatching, IsUnmatched};

use crate::graph::Graph;

/// The rows that blocks took.
#[derive(Drop)]
pub struct Matching {
    /// The row that each block took.
    pub own: Vec<Option<u32>>,
    /// Whether each edge was taken with a row.
    pub taken: Vec<bool>,
}

impl Matching {
    /// Whether a block took no row yet.
    pub(crate) fn is_open(&self, at: u32) -> bool
        requires { at < length self.now.own.items }
        ensures { IsTrue result ↔ IsUnmatched self.now at }
    {
        self.own[at as usize].is_none()
    }

    /// Whether an edge was taken.
    pub(crate) fn is_taken(&self, edge: u32) -> bool
        requires { edge < length self.now.taken.items }
        ensures { result ≡ slice_index_or self.now.taken.items edge false }
    {
        self.taken[edge as usize]
    }

    /// Which of two rows to keep: none where both edges are free and differ.
    pub(crate) fn kept(&self, graph: &Graph<'_>, keep: u32, next: u32) -> Option<u32>
        requires matching { IsMatching graph.now self.now }
        requires keep { keep < length graph.now.edge.now }
        requires next { next < length graph.now.edge.now }
        ensures { IsKept graph.now self.now keep next result }
    {
        let old = graph.edge[keep as usize];
        let new = graph.edge[next as usize];
        if self.is_taken(new) || new == old {
            return Some(keep);
        }
        if self.is_taken(old) {
            return Some(next);
        }
        None
    }

    /// Lets a block take a row with a free edge, and answers the other block with this edge.
    pub(crate) fn take(&mut self, graph: &Graph<'_>, at: u32, row: u32) -> Option<u32>
        requires matching { IsMatching graph.now self.old }
        requires block { IsBlockNumber graph.now.start.now at }
        requires isopen { IsUnmatched self.old at }
        requires row { In graph.now.start.now at row }
        requires free { IsFreeEdge self.old.taken.items (slice_index graph.now.edge.now row) }
        ensures { HasTaken graph.now self.old self.new at row result }
    {
        let its = graph.edge[row as usize];
        self.own[at as usize] = Some(row);
        self.taken[its as usize] = true;
        graph.other(its, at)
    }
}
