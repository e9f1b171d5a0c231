//! A list of rows without those of another.

ghost use Rattle.std.specs.Prelude.{◌≡◌, ◌↔◌, ◌<◌, [], List, Contains, IfOk, IsTrue, OnOk, Some, length, slice_get};
ghost use Rattle.std.specs.List.Sorted.{IsStrictlySortedBy};
ghost use Rattle.cqa_value.specs.declared.value.Value.{Value};
ghost use Rattle.cqa_value.specs.Values.{row_cmp};
ghost use Rattle.row_answers.specs.Sifting.{AreSifted};

use cqa_value::{NoMemory, Row};
use std::alloc::Global;

/// Whether a row stands at a place of others.
fn is_at(others: &[Row], at: usize, row: &Row) -> bool
    ensures within { IsTrue result → at < length others.now }
    ensures is { IsTrue result ↔ (slice_get others.now at ≡ Some row.now) }
{
    match others.get(at) {
        Some(other) => other == row,
        None => false,
    }
}

/// Puts the rows that aren't among others behind none.
fn leave_out(rows: Vec<Row>, others: &[Row], left: &mut Vec<Row>) -> Result<(), NoMemory>
    requires rows { IsStrictlySortedBy row_cmp rows.items }
    requires others { IsStrictlySortedBy row_cmp others.now }
    requires among { (row : List Value) → Contains others.now row → Contains rows.items row }
    requires none { left.old.items ≡ [] }
    ensures { OnOk result (AreSifted (λ row. Contains others.now row → ⊥) rows.items left.new.items) }
{
    let mut at = 0;
    for row in rows {
        if is_at(others, at, &row) {
            drop(row);
            at += 1;
        } else {
            left.push(row)?;
        }
    }
    Ok(())
}

/// The rows that aren't among others, in their order. Both ascend, and the others are all among the rows, so that each of the
/// others is met before the next one is looked for.
///
/// # Errors
///
/// `NoMemory` where memory is refused.
pub fn without(alloc: Global, rows: Vec<Row>, others: &[Row]) -> Result<Vec<Row>, NoMemory>
    requires rows { IsStrictlySortedBy row_cmp rows.items }
    requires others { IsStrictlySortedBy row_cmp others.now }
    requires among { (row : List Value) → Contains others.now row → Contains rows.items row }
    ensures { IfOk result (λ left. AreSifted (λ row. Contains others.now row → ⊥) rows.items left.items) }
{
    let mut left = Vec::new(alloc);
    match leave_out(rows, others, &mut left) {
        Ok(()) => Ok(left),
        Err(fault) => {
            drop(left);
            Err(fault)
        }
    }
}
