//! The classes of rows by their places, those of whole blocks, and lists of classes, each once.

ghost use Rattle.std.specs.Prelude.{◌≡◌, ◌+◌, ◌<◌, ◌≤◌, ◌↔◌, ◌⊎◌, ℕ, List, [], Some, true, false, IfOk, Contains, length, nat_eq, take};
ghost use Rattle.std.specs.Cmp.Lexicographic.{pointwise};
ghost use Rattle.cqa_model.specs.declared.limits.TheConstants.{MOST_ROWS};
ghost use Rattle.row_lists.specs.Spans.{variables_of_spans};
ghost use Rattle.list_search.specs.Classing.{AreBlockLists, AreRange, HasClass, HasAllClasses};

use crate::classing::Classed;
use cqa_value::{Items, NoMemory};
use join_access::put_in_order;
use row_lists::numbering::{Numbering, find_span};
use row_lists::span::Span;
use std::alloc::Global;
use std::cmp::Ordering;

/// The class of the row at a place of a slot. A row that has no number has none.
pub fn class_at(classed: &Classed, slot: u32, place: u32) -> Option<u32>
    ensures { (n : ℕ) → (result ≡ Some n) ↔ HasClass (variables_of_spans classed.now.rows.spans) classed.now.classes.items slot place n }
{
    match find_span(&classed.rows, slot, place) {
        Some(index) => classed.classes[index],
        None => None,
    }
}

/// Puts a class into a list if there is one.
///
/// # Errors
///
/// `NoMemory` where memory is refused.
pub fn push_class(class: Option<u32>, numbers: &mut Vec<u32>) -> Result<(), NoMemory>
    ensures { IfOk result (λ done. (n : ℕ) → Contains numbers.new.items n ↔ (Contains numbers.old.items n ⊎ (class ≡ Some n))) }
{
    if let Some(number) = class {
        numbers.push(number)?;
    }
    Ok(())
}

/// Puts the classes of a block's rows into a list. Says whether all of them have one: it ends at the first row that has none,
/// so it doesn't go over a wide block of which few rows have a class.
fn gather_block(classed: &Classed, span: &Span, numbers: &mut Vec<u32>) -> Result<bool, NoMemory>
    requires none { numbers.old.items ≡ [] }
    requires within { span.now.start + span.now.count ≤ MOST_ROWS }
    ensures all { IfOk result (λ whole. whole ≡ true → AreRange (variables_of_spans classed.now.rows.spans) classed.now.classes.items span.now.slot span.now.start (span.now.start + span.now.count) numbers.new.items) }
    ensures some { IfOk result (λ whole. whole ≡ false → HasAllClasses (variables_of_spans classed.now.rows.spans) classed.now.classes.items span.now → ⊥) }
{
    for at in 0..span.count {
        match class_at(classed, span.slot, span.start + at) {
            Some(class) => numbers.push(class)?,
            None => return Ok(false),
        }
    }
    Ok(true)
}

/// Adds the classes of a block if all of its rows have one.
fn add_block_list(
    alloc: Global,
    classed: &Classed,
    blocks: &Numbering,
    at: usize,
    lists: &mut Vec<Items<u32>>,
) -> Result<(), NoMemory>
    requires there { at < length blocks.now.spans }
    requires so_far { AreBlockLists (variables_of_spans classed.now.rows.spans) classed.now.classes.items (take at blocks.now.spans) lists.old.items }
    ensures { IfOk result (λ done. AreBlockLists (variables_of_spans classed.now.rows.spans) classed.now.classes.items (take (at + 1) blocks.now.spans) lists.new.items) }
{
    let mut numbers = Vec::new(alloc);
    if gather_block(classed, &blocks.spans.as_slice()[at], &mut numbers)? {
        put_in_order(&mut numbers);
        lists.push(Items::from_vec(numbers))?;
    }
    Ok(())
}

/// The classes of each block whose rows all have one.
///
/// # Errors
///
/// `NoMemory` where memory is refused.
pub fn block_lists(
    alloc: Global,
    classed: &Classed,
    blocks: &Numbering,
) -> Result<Vec<Items<u32>>, NoMemory>
    ensures { IfOk result (λ lists. AreBlockLists (variables_of_spans classed.now.rows.spans) classed.now.classes.items blocks.now.spans lists.items) }
{
    let mut lists = Vec::new(alloc);
    for at in 0..blocks.spans.len() {
        add_block_list(alloc, classed, blocks, at, &mut lists)?;
    }
    Ok(lists)
}

/// Keeps one of lists that are the same.
pub fn each_once(lists: &mut Vec<Items<u32>>)
    ensures { (list : List ℕ) → Contains lists.new.items list ↔ Contains lists.old.items list }
{
    lists.sort_unstable_by(|a, b| -> Ordering { a.as_slice().cmp(b.as_slice()) });
    lists.dedup_by(
        |a, b| -> bool
            ensures same { result ≡ pointwise nat_eq a.old b.old }
            ensures left { a.new ≡ a.old }
            ensures right { b.new ≡ b.old }
        { a.as_slice() == b.as_slice() },
    );
}
