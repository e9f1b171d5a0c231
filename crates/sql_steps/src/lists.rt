//! Lists of variables.

ghost use Rattle.std.specs.Prelude.{◌≡◌, ◌++◌, IfOk};
ghost use Rattle.sql_steps.specs.Variables.{all_below, ascending, covers, has, meets, within, without};

use cqa_model::COLUMN_NUMBERS;
use cqa_value::{Items, NoMemory};
use std::alloc::Global;

/// Whether a variable is in a list.
pub fn has(vs: &[u32], v: u32) -> bool
    ensures { result ≡ has vs.now v }
{
    for u in vs {
        if *u == v {
            return true;
        }
    }
    false
}

/// Whether two lists have a variable in common.
pub fn meets(us: &[u32], vs: &[u32]) -> bool
    ensures { result ≡ meets us.now vs.now }
{
    for u in us {
        if has(vs, *u) {
            return true;
        }
    }
    false
}

/// Whether each of a list is in another.
pub fn covers(vs: &[u32], us: &[u32]) -> bool
    ensures { result ≡ covers vs.now us.now }
{
    for u in us {
        if !has(vs, *u) {
            return false;
        }
    }
    true
}

/// Those of a list that are in another.
///
/// # Errors
///
/// `NoMemory` where memory is refused.
pub fn within(alloc: Global, us: &[u32], vs: &[u32]) -> Result<Items<u32>, NoMemory>
    ensures { IfOk result (λ list. list ≡ within us.now vs.now) }
{
    let mut list = Items::new(alloc);
    for u in us {
        if has(vs, *u) {
            list.push(*u)?;
        }
    }
    Ok(list)
}

/// Those of a list that aren't in another.
///
/// # Errors
///
/// `NoMemory` where memory is refused.
pub fn without(alloc: Global, us: &[u32], vs: &[u32]) -> Result<Items<u32>, NoMemory>
    ensures { IfOk result (λ list. list ≡ without us.now vs.now) }
{
    let mut list = Items::new(alloc);
    for u in us {
        if !has(vs, *u) {
            list.push(*u)?;
        }
    }
    Ok(list)
}

/// A list in ascending order, each once.
///
/// # Errors
///
/// `NoMemory` where memory is refused.
pub fn ascending(alloc: Global, vs: &[u32]) -> Result<Items<u32>, NoMemory>
    ensures { IfOk result (λ list. list ≡ ascending vs.now) }
{
    let numbers = numbers(alloc, COLUMN_NUMBERS as u32)?;
    within(alloc, numbers.as_slice(), vs)
}

/// The numbers below one.
pub(crate) fn numbers(alloc: Global, end: u32) -> Result<Items<u32>, NoMemory>
    ensures { IfOk result (λ list. list ≡ all_below end) }
{
    let mut list = Items::new(alloc);
    for number in 0..end {
        list.push(number)?;
    }
    Ok(list)
}

/// A list, and then another.
///
/// # Errors
///
/// `NoMemory` where memory is refused.
pub fn joined(alloc: Global, us: &[u32], vs: &[u32]) -> Result<Items<u32>, NoMemory>
    ensures { IfOk result (λ list. list ≡ us.now ++ vs.now) }
{
    let mut list = Vec::from_slice(alloc, us)?;
    list.extend_from_slice(vs)?;
    Ok(Items::from_vec(list))
}
