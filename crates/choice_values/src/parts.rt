//! Lists in parts that share no block.

ghost use Rattle.std.specs.Prelude.{◌≡◌, IfOk, IsTrue};
ghost use Rattle.choice_values.specs.Parts.{number_at, AreParts, AreNoLists, IsOf, IsSortedIn};

use crate::best::Fault;
use crate::lists::WeightedLists;
use block_choices::BlockRow;
use std::alloc::Global;

/// The number of a block's part.
fn number_of(numbers: &[u32], block: u32) -> u32
    ensures { result ≡ number_at numbers.now block }
{
    *numbers.get(block as usize).unwrap_or(&0)
}

/// Whether all blocks of a list have a number.
fn is_of(numbers: &[u32], number: u32, names: &[BlockRow]) -> bool
    ensures { IsTrue result → IsOf (number_at numbers.now) number names.now }
{
    for name in names {
        if number_of(numbers, name.block) != number {
            return false;
        }
    }
    true
}

/// So many parts without a list.
pub fn no_lists(alloc: Global, count: u32) -> Result<Vec<WeightedLists>, Fault>
    ensures { IfOk result (λ parts. AreNoLists parts.items) }
{
    let mut parts = Vec::new(alloc);
    for _part in 0..count {
        parts.push(WeightedLists::new(alloc))?;
    }
    Ok(parts)
}

/// Adds a list to the part of its blocks; false where they have no part or several.
fn sort_in(
    parts: &mut Vec<WeightedLists>,
    numbers: &[u32],
    weight: i128,
    names: &[BlockRow],
) -> Result<bool, Fault>
    ensures { IfOk result (λ done. IsTrue done → IsSortedIn (number_at numbers.now) record { weight = weight; names = names.now } parts.old.items parts.new.items) }
{
    let number = match names.first() {
        Some(name) => number_of(numbers, name.block),
        None => 0,
    };
    let at = number as usize;
    if at >= parts.len() || !is_of(numbers, number, names) {
        return Ok(false);
    }
    parts[at].add(weight, names)?;
    Ok(true)
}

/// Adds each list to the part of its blocks; false where one has no part or several.
///
/// # Errors
///
/// `NoMemory` where memory is refused.
pub fn fill_parts(
    lists: &WeightedLists,
    numbers: &[u32],
    parts: &mut Vec<WeightedLists>,
) -> Result<bool, Fault>
    requires { AreNoLists parts.old.items }
    ensures { IfOk result (λ done. IsTrue done → AreParts lists.now parts.new.items) }
{
    for at in 0..lists.len() {
        if !sort_in(parts, numbers, lists.weight(at), lists.names(at))? {
            return Ok(false);
        }
    }
    Ok(true)
}
