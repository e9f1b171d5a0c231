//! The choice that a model of a group's formula gives.

ghost use Rattle.std.specs.Prelude.{◌≡◌, ◌≤◌, IfOk, length};
ghost use Rattle.std.specs.List.{sum};
ghost use Rattle.block_lists.specs.declared.limits.TheConstants.{MOST_GROUP_ROWS};
ghost use Rattle.block_lists.specs.Picks.{first_true, first_trues};

use cqa_value::NoMemory;

/// The place of the first true value, or their number.
pub(crate) fn first_true(values: &[bool]) -> u32
    requires { length values.now ≤ MOST_GROUP_ROWS }
    ensures { result ≡ first_true values.now }
{
    for at in 0..values.len() {
        if values[at] {
            return at as u32;
        }
    }
    values.len() as u32
}

/// Puts the first true row of each block into `choice`, whatever stands there, where the rows have truth values block after block.
///
/// # Errors
///
/// `NoMemory` where memory is refused.
pub fn fill_choice(sizes: &[u32], values: &[bool], choice: &mut Vec<u32>) -> Result<(), NoMemory>
    requires each { length values.now ≡ sum sizes.now }
    requires few { sum sizes.now ≤ MOST_GROUP_ROWS }
    ensures { IfOk result (λ done. choice.new.items ≡ first_trues sizes.now values.now) }
{
    choice.clear();
    let mut from = 0;
    for size in sizes {
        let to = from + *size as usize;
        choice.push(first_true(&values[from..to]))?;
        from = to;
    }
    Ok(())
}
