//! The ends of edges.
//! An edge occurs in at most one block of each table.

ghost use Rattle.std.specs.Prelude.{◌≡◌, ◌+◌, IfOk, None, length, replicate};
ghost use Rattle.weak_pairs.specs.Layout.{AreRows, IsOneSided, set_end};
ghost use Rattle.weak_pairs.specs.Peeling.{AreLaidOut};

use crate::graph::Ends;
use cqa_value::NoMemory;
use std::alloc::Global;

/// The ends with a block for one of them.
fn with_end(ends: Ends, left: bool, v: u32) -> Ends
    ensures { result ≡ set_end ends left v }
{
    if left {
        Ends {
            left: Some(v),
            right: ends.right,
        }
    } else {
        Ends {
            left: ends.left,
            right: Some(v),
        }
    }
}

/// No edge has an end.
fn no_ends(alloc: Global, count: u32) -> Result<Vec<Ends>, NoMemory>
    ensures { IfOk result (λ ends. ends.items ≡ replicate count (record { left = None; right = None })) }
{
    let none = Ends {
        left: None,
        right: None,
    };
    Ok(vec![in alloc; none; count as usize]?)
}

/// The blocks in which each edge occurs.
///
/// # Errors
///
/// `NoMemory` where memory is refused.
pub fn edge_ends(
    alloc: Global,
    start: &[u32],
    edge: &[u32],
    blocks: u32,
    split: u32,
    count: u32,
) -> Result<Vec<Ends>, NoMemory>
    requires blocks { blocks + 1 ≡ length start.now }
    requires rows { AreRows start.now edge.now count }
    requires one_sided { IsOneSided start.now edge.now split }
    ensures laid { IfOk result (λ ends. AreLaidOut start.now edge.now ends.items) }
    ensures size { IfOk result (λ ends. length ends.items ≡ count) }
{
    let mut ends = no_ends(alloc, count)?;
    for v in 0..blocks {
        for i in start[v as usize]..start[v as usize + 1] {
            let e = edge[i as usize];
            ends[e as usize] = with_end(ends[e as usize], v < split, v);
        }
    }
    Ok(ends)
}
