//! The edges of rows: rows of different blocks have one edge exactly where their variables meet.
//! A variable's edge is the least left one that meets the same, and one that meets none is its own edge.

ghost use Rattle.std.specs.Prelude.{◌≡◌, ◌⊎◌, ◌<◌, ◌≤◌, ℕ, IfOk, Contains, length, map, slice_index, slice_set};
ghost use Rattle.pair_refutation.specs.Graph.{ArePaired};
ghost use Rattle.pair_refutation.specs.Edges.{AreOfVars, AreOwn, AreVarEdges};

use crate::graph::Pair;
use cqa_value::NoMemory;
use std::alloc::Global;

/// Each variable is its own edge.
fn own_edges(alloc: Global, vars: u32) -> Result<Vec<u32>, NoMemory>
    ensures { IfOk result (λ edge. AreOwn vars edge.items) }
{
    let mut edge = Vec::new(alloc);
    for x in 0..vars {
        edge.push(x)?;
    }
    edge.push(vars)?;
    Ok(edge)
}

/// Lowers the edge of a variable.
fn lower(edge: &mut Vec<u32>, at: u32, to: u32)
    requires { at < length edge.old.items }
    ensures { ((to < slice_index edge.old.items at) × (edge.new.items ≡ slice_set edge.old.items at to)) ⊎ ((slice_index edge.old.items at ≤ to) × (edge.new.items ≡ edge.old.items)) }
{
    if to < edge[at as usize] {
        edge[at as usize] = to;
    }
}

/// The edge of each variable: right ones get the least left one that they meet, and then left ones the edge of those that they
/// meet.
fn var_edges(alloc: Global, pairs: &[Pair], vars: u32) -> Result<Vec<u32>, NoMemory>
    requires { ArePaired vars pairs.now }
    ensures { IfOk result (λ edge. AreVarEdges pairs.now vars edge.items) }
{
    let mut edge = own_edges(alloc, vars)?;
    'least: for pair in pairs {
        lower(&mut edge, pair.right, pair.left);
    }
    'left: for pair in pairs {
        edge[pair.left as usize] = edge[pair.right as usize];
    }
    Ok(edge)
}

/// The edges of variables, one after the other.
fn edges_of(alloc: Global, of_var: &[u32], var: &[u32]) -> Result<Vec<u32>, NoMemory>
    requires { (x : ℕ) → Contains var.now x → x < length of_var.now }
    ensures { IfOk result (λ edge. edge.items ≡ map (λ x. slice_index of_var.now x) var.now) }
{
    let mut edge = Vec::new(alloc);
    for x in var {
        edge.push(of_var[*x as usize])?;
    }
    Ok(edge)
}

/// The edge of each row.
pub(crate) fn row_edges(
    alloc: Global,
    pairs: &[Pair],
    vars: u32,
    var: &[u32],
) -> Result<Vec<u32>, NoMemory>
    requires paired { ArePaired vars pairs.now }
    requires small { (x : ℕ) → Contains var.now x → x ≤ vars }
    ensures { IfOk result (λ edge. AreOfVars pairs.now vars var.now edge.items) }
{
    let of_var = var_edges(alloc, pairs, vars)?;
    edges_of(alloc, &of_var, var)
}
