//! Graphs of blocks: each row of a block has an edge, and an edge occurs in two blocks at most.
//! Rows, blocks and edges are numbered. The rows of block v are those from `start[v]` up to `start[v + 1]`.

ghost use Rattle.std.specs.Prelude.{◌≡◌, ◌+◌, length};
ghost use Rattle.std.proofs.Props.{props};
ghost use Rattle.weak_pairs.specs.Peeling.{AreLaidOut};

/// The blocks in which an edge occurs, at most one of each table.
#[derive(Clone, Copy)]
pub struct Ends {
    pub left: Option<u32>,
    pub right: Option<u32>,
}

/// Blocks of rows, each row with its edge, and each edge with its ends.
#[derive(Clone, Copy)]
pub struct Graph<'a> {
    /// Where each block's rows begin, and at last the number of rows.
    pub start: &'a [u32],
    /// The edge of each row.
    pub edge: &'a [u32],
    /// The ends of each edge.
    pub ends: &'a [Ends],
    /// How many blocks there are.
    pub blocks: u32,
    pub ghost counted: { blocks + 1 ≡ length start.now },
    pub ghost laid: { AreLaidOut start.now edge.now ends.now } by { Prim.hlevel props },
}

impl Graph<'_> {
    ghost use Rattle.std.specs.Prelude.{◌<◌};
    ghost use Rattle.weak_pairs.specs.Peeling.{IsOtherEnd, ends_of};

    /// The block other than `at` in which the edge occurs.
    pub(crate) fn other(&self, edge: u32, at: u32) -> Option<u32>
        requires { edge < length self.now.ends.now }
        ensures { IsOtherEnd (ends_of self.now.ends.now edge) at result }
    {
        let both = self.ends[edge as usize];
        if both.left == Some(at) {
            both.right
        } else {
            both.left
        }
    }
}
