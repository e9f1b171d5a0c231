//! The ends of edges: the blocks, two at most, in which an edge occurs.

ghost use Rattle.std.specs.Prelude.{◌≡◌, ◌+◌, IfOk, length};
ghost use Rattle.weak_pairs.specs.Layout.{AreRows};
ghost use Rattle.weak_pairs.specs.Peeling.{AreLaidOut};
ghost use Rattle.pair_refutation.specs.Edges.{AddsEnd, IsTwoEnded};

use cqa_value::NoMemory;
use std::alloc::Global;
use weak_pairs::Ends;

/// The ends with a block for one of them.
fn with_end(ends: Ends, v: u32) -> Ends
    ensures { AddsEnd ends v result }
{
    match ends.left {
        None => Ends {
            left: Some(v),
            right: ends.right,
        },
        Some(u) => {
            if u == v {
                ends
            } else {
                Ends {
                    left: ends.left,
                    right: Some(v),
                }
            }
        }
    }
}

/// The blocks in which each edge occurs.
pub(crate) fn edge_ends(
    alloc: Global,
    start: &[u32],
    edge: &[u32],
    blocks: u32,
    count: usize,
) -> Result<Vec<Ends>, NoMemory>
    requires blocks { blocks + 1 ≡ length start.now }
    requires rows { AreRows start.now edge.now count }
    requires two { IsTwoEnded start.now edge.now }
    ensures { IfOk result (λ ends. AreLaidOut start.now edge.now ends.items) }
{
    let none = Ends {
        left: None,
        right: None,
    };
    let mut ends = vec![in alloc; none; count]?;
    for v in 0..blocks {
        for i in start[v as usize]..start[v as usize + 1] {
            let e = edge[i as usize];
            ends[e as usize] = with_end(ends[e as usize], v);
        }
    }
    Ok(ends)
}
