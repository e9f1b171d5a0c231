//! The pairs of each variable, from its last one back.
//! Each pair leads to the one before it that has the same left variable, and to the one that has the same right one.

ghost use Rattle.std.specs.Prelude.{◌≡◌, ◌⊎◌, ◌+◌, ◌++◌, ◌∷◌, ◌<◌, ◌↔◌, [], IfOk, IsFalse, None, OnOk, Some, length, slice_set};
ghost use Rattle.pair_refutation.specs.Graph.{ArePaired};
ghost use Rattle.pair_refutation.specs.Edges.{pair_at};
ghost use Rattle.pair_refutation.specs.Refuting.{AreChains, IsLastOf, IsOf, option_at};

use crate::Pair;
use cqa_value::NoMemory;
use std::alloc::Global;

/// The places of the pairs of each variable.
#[derive(Drop)]
pub(crate) struct Chains {
    /// The last pair of each variable.
    pub last: Vec<Option<usize>>,
    /// Of each pair, the one before it that has its left variable.
    pub left: Vec<Option<usize>>,
    /// Of each pair, the one before it that has its right variable.
    pub right: Vec<Option<usize>>,
}

/// Puts a pair behind those before it.
fn chain(chains: &mut Chains, pair: Pair, place: usize) -> Result<(), NoMemory>
    requires left { pair.left < length chains.old.last.items }
    requires right { pair.right < length chains.old.last.items }
    ensures last { OnOk result (chains.new.last.items ≡ slice_set (slice_set chains.old.last.items pair.left (Some place)) pair.right (Some place)) }
    ensures left { OnOk result (chains.new.left.items ≡ chains.old.left.items ++ option_at chains.old.last.items pair.left ∷ []) }
    ensures right { OnOk result (chains.new.right.items ≡ chains.old.right.items ++ option_at chains.old.last.items pair.right ∷ []) }
{
    chains.left.push(chains.last[pair.left as usize])?;
    chains.right.push(chains.last[pair.right as usize])?;
    chains.last[pair.left as usize] = Some(place);
    chains.last[pair.right as usize] = Some(place);
    Ok(())
}

/// The pairs of each variable.
pub(crate) fn chain_pairs(alloc: Global, pairs: &[Pair], vars: u32) -> Result<Chains, NoMemory>
    requires { ArePaired vars pairs.now }
    ensures are { IfOk result (AreChains pairs.now) }
    ensures size { IfOk result (λ chains. length chains.last.items ≡ vars + 1) }
{
    let mut chains = Chains {
        last: vec![in alloc; None; vars as usize + 1]?,
        left: Vec::new(alloc),
        right: Vec::new(alloc),
    };
    for place in 0..pairs.len() {
        chain(&mut chains, pairs[place], place)?;
    }
    Ok(chains)
}

/// Whether a variable has a pair.
pub(crate) fn has_pair(chains: &Chains, x: u32) -> bool
    requires { x < length chains.now.last.items }
    ensures { IsFalse result ↔ (option_at chains.now.last.items x ≡ None) }
{
    chains.last[x as usize].is_some()
}

/// The pair of a variable before one that it has.
pub(crate) fn before(pairs: &[Pair], chains: &Chains, at: usize, x: u32) -> Option<usize>
    requires chains { AreChains pairs.now chains.now }
    requires place { at < length pairs.now }
    requires of { IsOf (pair_at pairs.now at) x }
    ensures { IsLastOf pairs.now x at result }
{
    if pairs[at].left == x {
        chains.left[at]
    } else {
        chains.right[at]
    }
}

/// The variable beside another in a pair.
pub(crate) fn other(pair: Pair, x: u32) -> u32
    requires { IsOf pair x }
    ensures { (pair.left ≡ x) × (result ≡ pair.right) ⊎ (pair.right ≡ x) × (result ≡ pair.left) }
{
    if pair.left == x {
        pair.right
    } else {
        pair.left
    }
}
