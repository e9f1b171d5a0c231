//! The columns of an atom that a query speaks of: rows of the atom that agree in them are alike.

ghost use Rattle.std.specs.Prelude.{IfOk, Contains};
ghost use Rattle.cqa_model.specs.declared.query.ColRef.{ColRef as Column};
ghost use Rattle.cqa_model.specs.declared.query.Cond.{Cond as CondValue};
ghost use Rattle.cqa_model.specs.Shape.{columns_of};
ghost use Rattle.part_search.specs.Spoken.{IsSpokenOf};
ghost use Rattle.part_search.specs.Spoken.{HasColumn, LosesNone};

use cqa_model::{ColRef, Cond, Query};
use cqa_value::NoMemory;
use std::alloc::Global;

/// Adds a column if it is one of the atom's.
fn add_column(atom: usize, column: ColRef, columns: &mut Vec<u32>) -> Result<(), NoMemory>
    ensures kept { IfOk result (λ done. LosesNone columns.old.items columns.new.items) }
    ensures added { IfOk result (λ done. HasColumn atom columns.new.items column) }
{
    if column.atom as usize == atom {
        columns.push(column.col)?;
    }
    Ok(())
}

/// Adds the atom's columns of a condition.
fn add_columns(atom: usize, cond: &Cond, columns: &mut Vec<u32>) -> Result<(), NoMemory>
    ensures kept { IfOk result (λ done. LosesNone columns.old.items columns.new.items) }
    ensures added { IfOk result (λ done. (c : Column) → Contains (columns_of cond.now) c → HasColumn atom columns.new.items c) }
{
    match cond {
        Cond::Join { left, right } => {
            add_column(atom, *left, columns)?;
            add_column(atom, *right, columns)
        }
        Cond::Test { col, .. } => add_column(atom, *col, columns),
    }
}

/// Adds the atom's columns of all conditions.
fn add_tested(atom: usize, conds: &[Cond], columns: &mut Vec<u32>) -> Result<(), NoMemory>
    ensures { IfOk result (λ done. (k : CondValue) → Contains conds.now k → (c : Column) → Contains (columns_of k) c → HasColumn atom columns.new.items c) }
{
    for cond in conds {
        add_columns(atom, cond, columns)?;
    }
    Ok(())
}

/// Adds the atom's columns of the answer.
fn add_answered(atom: usize, answer: &[ColRef], columns: &mut Vec<u32>) -> Result<(), NoMemory>
    ensures kept { IfOk result (λ done. LosesNone columns.old.items columns.new.items) }
    ensures added { IfOk result (λ done. (c : Column) → Contains answer.now c → HasColumn atom columns.new.items c) }
{
    for column in answer {
        add_column(atom, *column, columns)?;
    }
    Ok(())
}

/// The columns of the atom at a place that a condition or the answer speaks of.
///
/// # Errors
///
/// `NoMemory` where memory is refused.
pub(crate) fn spoken_columns(
    alloc: Global,
    query: &Query,
    atom: usize,
) -> Result<Vec<u32>, NoMemory>
    ensures { IfOk result (λ columns. (c : Column) → IsSpokenOf query.now c → HasColumn atom columns.items c) }
{
    let mut columns = Vec::new(alloc);
    add_tested(atom, query.conds.as_slice(), &mut columns)?;
    add_answered(atom, query.answer.as_slice(), &mut columns)?;
    Ok(columns)
}
