//! The least and the greatest value of lists, with a choice that has it.

ghost use Rattle.std.specs.Prelude.{◌≡◌, ◌<◌, ℕ, [], Contains, IfOk};
ghost use Rattle.choice_values.specs.Choosing.{AreRows};
ghost use Rattle.choice_values.specs.Negation.{negated};
ghost use Rattle.choice_values.specs.Values.{AreLists, IsGreatest, IsLeast};

use crate::best::{Best, Fault};
use crate::lists::WeightedLists;
use crate::numbers::negative;
use crate::room::Room;
use crate::solving::solve;
use std::alloc::Global;

/// So deep may cases be within one another.
const MOST_DEPTH: u32 = 1_000;

/// The first row of each block.
fn first_rows(alloc: Global, sizes: &[u32]) -> Result<Vec<u32>, Fault>
    requires { (s : ℕ) → Contains sizes.now s → 0 < s }
    ensures { IfOk result (λ rows. AreRows sizes.now rows.items) }
{
    Ok(vec![in alloc; 0u32; sizes.len()]?)
}

/// A choice of the least value. The budget is in lists that are looked at.
///
/// # Errors
///
/// `Spent` where the budget doesn't do, and `NoMemory` where memory is refused.
pub fn least(
    alloc: Global,
    sizes: &[u32],
    lists: &WeightedLists,
    budget: u64,
) -> Result<Best, Fault>
    requires { AreLists sizes.now lists.now }
    ensures { IfOk result (IsLeast sizes.now lists.now) }
{
    let mut rows = first_rows(alloc, sizes)?;
    let mut room = Room::new(alloc, sizes.len(), budget)?;
    let value = solve(alloc, sizes, lists, &mut rows, &mut room, MOST_DEPTH)?;
    Ok(Best { value, rows })
}

/// Goes through the lists.
fn fill_negated(lists: &WeightedLists, turned: &mut WeightedLists) -> Result<(), Fault>
    requires { turned.old ≡ [] }
    ensures { IfOk result (λ done. turned.new ≡ negated lists.now) }
{
    for at in 0..lists.len() {
        turned.add(negative(lists.weight(at))?, lists.names(at))?;
    }
    Ok(())
}

/// The same lists, with the negative of each weight.
fn negate(alloc: Global, lists: &WeightedLists) -> Result<WeightedLists, Fault>
    ensures { IfOk result (λ turned. turned ≡ negated lists.now) }
{
    let mut turned = WeightedLists::new(alloc);
    let filled = fill_negated(lists, &mut turned);
    if let Err(fault) = filled {
        drop(turned);
        return Err(fault);
    }
    Ok(turned)
}

/// A choice of the greatest value. The budget is in lists that are looked at.
///
/// # Errors
///
/// `Spent` where the budget doesn't do, and `NoMemory` where memory is refused.
pub fn greatest(
    alloc: Global,
    sizes: &[u32],
    lists: &WeightedLists,
    budget: u64,
) -> Result<Best, Fault>
    requires { AreLists sizes.now lists.now }
    ensures { IfOk result (IsGreatest sizes.now lists.now) }
{
    let turned = negate(alloc, lists)?;
    let found = least(alloc, sizes, &turned, budget);
    drop(turned);
    let mut best = found?;
    best.value = negative(best.value)?;
    Ok(best)
}
