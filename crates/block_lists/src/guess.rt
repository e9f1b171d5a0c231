//! A choice that is tried before a search: of each block a row that stands in no list, where it has one.

ghost use Rattle.std.specs.Prelude.{◌≡◌, ◌≤◌, ◌<◌, ℕ, [], Contains, IfOk, IsTrue, length};
ghost use Rattle.std.specs.List.{sum};
ghost use Rattle.block_lists.specs.declared.limits.TheConstants.{MOST_GROUP_ROWS};
ghost use Rattle.block_choices.specs.Choices.{IsAvoidedBy, IsChoice};
ghost use Rattle.block_lists.specs.Groups.{IsGroup};
ghost use Rattle.block_lists.specs.Numbers.{AreAllBasedOver, AreBasedOver};

use crate::numbers::{fill_bases, total};
use crate::picks::first_true;
use crate::walking::holds_some;
use block_choices::{BlockRow, Lists};
use cqa_value::NoMemory;
use std::alloc::Global;

/// Marks the rows of a list as not free.
fn mark_list(bases: &[u32], names: &[BlockRow], free: &mut [bool])
    requires { AreBasedOver bases.now names.now }
    ensures { length free.new ≡ length free.old }
{
    for name in names {
        let at = (bases[name.block as usize] + name.row) as usize;
        if at < free.len() {
            free[at] = false;
        }
    }
}

/// Marks the rows of lists as not free.
fn mark_lists(bases: &[u32], lists: &Lists, free: &mut [bool])
    requires { AreAllBasedOver bases.now lists.now }
    ensures { length free.new ≡ length free.old }
{
    for at in 0..lists.len() {
        mark_list(bases, lists.list(at), free);
    }
}

/// The first free row of a block, or its first row.
fn free_row(free: &[bool]) -> u32
    requires some { 0 < length free.now }
    requires few { length free.now ≤ MOST_GROUP_ROWS }
    ensures { result < length free.now }
{
    let row = first_true(free);
    if (row as usize) < free.len() { row } else { 0 }
}

/// Puts the first free row of each block into `choice`, whatever stands there, or its first row.
fn fill_free(sizes: &[u32], free: &[bool], choice: &mut Vec<u32>) -> Result<(), NoMemory>
    requires some { (s : ℕ) → Contains sizes.now s → 0 < s }
    requires each { length free.now ≡ sum sizes.now }
    requires few { sum sizes.now ≤ MOST_GROUP_ROWS }
    ensures { IfOk result (λ done. IsChoice sizes.now choice.new.items) }
{
    choice.clear();
    let mut from = 0;
    for size in sizes {
        let to = from + *size as usize;
        choice.push(free_row(&free[from..to]))?;
        from = to;
    }
    Ok(())
}

/// Whether the choice of free rows, which is left in `choice`, holds no list whole. It takes time by the rows and the names of the
/// group, however many blocks there are.
///
/// # Errors
///
/// `NoMemory` where memory is refused.
pub fn free_avoids(
    alloc: Global,
    sizes: &[u32],
    lists: &Lists,
    choice: &mut Vec<u32>,
) -> Result<bool, NoMemory>
    requires { IsGroup sizes.now lists.now }
    ensures { IfOk result (λ yes. IsTrue yes → IsAvoidedBy sizes.now lists.now choice.new.items) }
{
    let mut bases = Vec::with_capacity(alloc, sizes.len())?;
    fill_bases(sizes, &mut bases)?;
    let mut free = vec![in alloc; true; total(sizes) as usize]?;
    mark_lists(bases.as_slice(), lists, free.as_mut_slice());
    fill_free(sizes, free.as_slice(), choice)?;
    Ok(!holds_some(choice.as_slice(), lists))
}
