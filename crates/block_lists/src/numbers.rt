//! The numbers of rows, by which they are variables of a formula: from 1, block after block.

ghost use Rattle.std.specs.Prelude.{◌≡◌, ◌↔◌, ◌≤◌, ℕ, [], Contains, IfOk, IsTrue, map};
ghost use Rattle.std.specs.List.{sum};
ghost use Rattle.std.specs.List.Sorted.{IsStrictlySortedBy};
ghost use Rattle.std.specs.Ordering.{nat_cmp};
ghost use Rattle.block_lists.specs.declared.limits.TheConstants.{MOST_GROUP_ROWS};
ghost use Rattle.block_lists.specs.Numbers.{AreBasedOver, bases_from, number_over};

use block_choices::BlockRow;
use cqa_value::NoMemory;

/// How many rows blocks have together.
pub fn total(sizes: &[u32]) -> u32
    requires { sum sizes.now ≤ MOST_GROUP_ROWS }
    ensures { result ≡ sum sizes.now }
{
    let mut total = 0;
    for size in sizes {
        total += *size;
    }
    total
}

/// Puts how many rows stand in the blocks before each into an empty list.
///
/// # Errors
///
/// `NoMemory` where memory is refused.
pub fn fill_bases(sizes: &[u32], bases: &mut Vec<u32>) -> Result<(), NoMemory>
    requires few { sum sizes.now ≤ MOST_GROUP_ROWS }
    requires none { bases.old.items ≡ [] }
    ensures { IfOk result (λ done. bases.new.items ≡ bases_from 0 sizes.now) }
{
    let mut base = 0;
    for size in sizes {
        bases.push(base)?;
        base += *size;
    }
    Ok(())
}

/// Puts the numbers of a list's rows into an empty list, as they come.
///
/// # Errors
///
/// `NoMemory` where memory is refused.
pub fn fill_numbers(
    bases: &[u32],
    names: &[BlockRow],
    numbers: &mut Vec<u32>,
) -> Result<(), NoMemory>
    requires based { AreBasedOver bases.now names.now }
    requires none { numbers.old.items ≡ [] }
    ensures { IfOk result (λ done. numbers.new.items ≡ map (number_over bases.now) names.now) }
{
    for name in names {
        numbers.push(bases[name.block as usize] + 1 + name.row)?;
    }
    Ok(())
}

/// Whether numbers rise.
fn rise(numbers: &[u32]) -> bool
    ensures { IsTrue result → IsStrictlySortedBy nat_cmp numbers.now }
{
    for at in 1..numbers.len() {
        if numbers[at - 1] >= numbers[at] {
            return false;
        }
    }
    true
}

/// Puts numbers in order, each once; where they rise already, they are only looked through.
pub fn order(numbers: &mut Vec<u32>)
    ensures rises { IsStrictlySortedBy nat_cmp numbers.new.items }
    ensures same { (n : ℕ) → Contains numbers.new.items n ↔ Contains numbers.old.items n }
{
    if !rise(numbers.as_slice()) {
        numbers.sort_unstable();
        numbers.dedup();
    }
}
