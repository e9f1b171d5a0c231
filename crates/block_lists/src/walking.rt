//! A walk over the choices of a row of each block, which passes over those that begin as one that holds a list.

ghost use Rattle.std.specs.Prelude.{◌≡◌, ◌↔◌, ◌⊎◌, ◌<◌, ℕ, List, IsTrue, IfOk, Contains, false};
ghost use Rattle.block_choices.specs.Choices.{Chooses, HoldsWhole, HoldsSome, IsChoice};
ghost use Rattle.block_lists.specs.Walks.{IsBegun};
ghost use Rattle.block_lists.specs.Walks.{IsBefore, Begins, WalkIs};

use block_choices::{BlockRow, Lists};
use cqa_value::NoMemory;

/// What a walk finds out.
#[derive(Clone, Copy, Debug, PartialEq, Eq)]
pub enum Walked {
    /// Each choice holds a list whole.
    Forced,
    /// The choice at which it stands holds none.
    Avoided,
    /// It took too many steps.
    Unclear,
}

/// Whether rows chosen of the first blocks have a row among them.
fn is_chosen(choice: &[u32], row: BlockRow) -> bool
    ensures { IsTrue result ↔ Chooses choice.now row }
{
    let at = row.block as usize;
    at < choice.len() && choice[at] == row.row
}

/// Whether they have all rows of a list among them.
fn is_held(choice: &[u32], names: &[BlockRow]) -> bool
    ensures { IsTrue result ↔ HoldsWhole choice.now names.now }
{
    for row in names {
        if !is_chosen(choice, *row) {
            return false;
        }
    }
    true
}

/// Whether they have all rows of some list among them.
pub(crate) fn holds_some(choice: &[u32], lists: &Lists) -> bool
    ensures { IsTrue result ↔ HoldsSome choice.now lists.now }
{
    for at in 0..lists.len() {
        if is_held(choice, lists.list(at)) {
            return true;
        }
    }
    false
}

/// Goes on to the first choice behind all that begin with these rows; says whether there is one.
fn go_on(sizes: &[u32], choice: &mut Vec<u32>) -> Result<bool, NoMemory>
    requires { IsBegun sizes.now choice.old.items }
    ensures begun { IfOk result (λ more. IsBegun sizes.now choice.new.items) }
    ensures next { IfOk result (λ more. IsTrue more → (c : List ℕ) → IsChoice sizes.now c → IsBefore c choice.new.items → IsBefore c choice.old.items ⊎ Begins c choice.old.items) }
    ensures last { IfOk result (λ more. more ≡ false → (c : List ℕ) → IsChoice sizes.now c → IsBefore c choice.old.items ⊎ Begins c choice.old.items) }
{
    while let Some(row) = choice.pop() {
        let next = row + 1;
        if next < sizes[choice.len()] {
            choice.push(next)?;
            return Ok(true);
        }
    }
    Ok(false)
}

/// So many lists does a walk look at, at most, and so many of their rows times `ROWS_A_LOOK`.
pub const MOST_LOOKS: usize = 20_000;

const ROWS_A_LOOK: usize = 8;

/// How many steps a walk takes, each of which may look at all lists and at all their rows.
fn steps(lists: &Lists) -> usize {
    let by_lists = MOST_LOOKS / lists.len().max(1);
    let by_rows = MOST_LOOKS * ROWS_A_LOOK / lists.weight().max(1);
    by_lists.min(by_rows)
}

/// Whether each choice of a row of each block holds a list whole, or a choice that holds none, which is left in `choice`. A walk that would look at too many lists
/// ends without.
///
/// # Errors
///
/// `NoMemory` where memory is refused.
pub fn walk(sizes: &[u32], lists: &Lists, choice: &mut Vec<u32>) -> Result<Walked, NoMemory>
    requires { (s : ℕ) → Contains sizes.now s → 0 < s }
    ensures { IfOk result (WalkIs sizes.now lists.now choice.new.items) }
{
    choice.clear();
    for _step in 0..steps(lists) {
        if holds_some(choice.as_slice(), lists) {
            if !go_on(sizes, choice)? {
                return Ok(Walked::Forced);
            }
        } else if choice.len() == sizes.len() {
            return Ok(Walked::Avoided);
        } else {
            choice.push(0)?;
        }
    }
    Ok(Walked::Unclear)
}
