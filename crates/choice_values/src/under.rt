//! Lists where a block keeps a row.

ghost use Rattle.std.specs.Prelude.{◌≡◌, ◌++◌, ◌∷◌, [], ℕ, IfOk, List, true};
ghost use Rattle.choice_values.specs.Values.{Weighted};
ghost use Rattle.choice_values.specs.Choosing.{worths};
ghost use Rattle.choice_values.specs.Under.{IsCut, IsUnder};

use crate::best::Fault;
use crate::lists::WeightedLists;
use crate::numbers::both;
use block_choices::BlockRow;
use std::alloc::Global;

/// What counts for good, and the lists that are left.
#[derive(Debug, Drop)]
pub struct Rest {
    pub base: i128,
    pub lists: WeightedLists,
}

/// Puts what is left of a list where a block keeps a row into `left`; false where it names another row of the block.
fn cut(names: &[BlockRow], block: u32, row: u32, left: &mut Vec<BlockRow>) -> Result<bool, Fault>
    ensures { IfOk result (IsCut block row names.now left.new.items) }
{
    left.clear();
    for name in names {
        if name.block != block {
            left.push(*name)?;
        } else if name.row != row {
            return Ok(false);
        }
    }
    Ok(true)
}

/// Takes in what is left of a list: for good, where that is no row.
fn take_in(rest: &mut Rest, weight: i128, left: &[BlockRow]) -> Result<(), Fault>
    ensures { IfOk result (λ done. (b r : ℕ) (front : List Weighted) (l : Weighted) → IsUnder b r front rest.old.base rest.old.lists → l.weight ≡ weight → IsCut b r l.names left.now true → IsUnder b r (front ++ l ∷ []) rest.new.base rest.new.lists) }
{
    if left.is_empty() {
        rest.base = both(rest.base, weight)?;
    } else {
        rest.lists.add(weight, left)?;
    }
    Ok(())
}

/// Goes through the lists.
fn fill_rest(
    lists: &WeightedLists,
    block: u32,
    row: u32,
    left: &mut Vec<BlockRow>,
    rest: &mut Rest,
) -> Result<(), Fault>
    requires { IsUnder block row [] rest.old.base rest.old.lists }
    ensures { IfOk result (λ done. IsUnder block row lists.now rest.new.base rest.new.lists) }
{
    for at in 0..lists.len() {
        if cut(lists.names(at), block, row, left)? {
            take_in(rest, lists.weight(at), left.as_slice())?;
        }
    }
    Ok(())
}

/// What is left of lists where a block keeps a row.
///
/// # Errors
///
/// `NoMemory` where memory is refused, and `Spent` where a sum is past `i128`.
pub fn under(
    alloc: Global,
    lists: &WeightedLists,
    block: u32,
    row: u32,
    left: &mut Vec<BlockRow>,
) -> Result<Rest, Fault>
    ensures { IfOk result (λ rest. IsUnder block row lists.now rest.base rest.lists) }
{
    let mut rest = Rest {
        base: 0,
        lists: WeightedLists::new(alloc),
    };
    let filled = fill_rest(lists, block, row, left, &mut rest);
    if let Err(fault) = filled {
        drop(rest);
        return Err(fault);
    }
    Ok(rest)
}

/// What lists without a row add up to, in each choice.
///
/// # Errors
///
/// `Spent` where a list has a row or a sum is past `i128`.
pub fn whole(lists: &WeightedLists) -> Result<i128, Fault>
    ensures { IfOk result (λ sum. (c : ℕ → ℕ) → worths c lists.now ≡ sum) }
{
    let mut sum = 0;
    for at in 0..lists.len() {
        if !lists.names(at).is_empty() {
            return Err(Fault::Spent);
        }
        sum = both(sum, lists.weight(at))?;
    }
    Ok(sum)
}
