//! The row of an `explain`: a value for each answer column of its query, of the column's kind.

ghost use Rattle.std.specs.Prelude.{◌≡◌, ◌<◌, Some, None, MatchResult, length, slice_get};
ghost use Rattle.refusals.specs.Kinds.{kind_fault};
ghost use Rattle.query_resolve.specs.Checks.{answer_fault, answer_kinds};

use crate::column::kind_of_column;
use crate::faults::kind_mismatch;
use cqa_value::{Kind, Row};
use refusals::{Place, Refusal};
use table_blocks::Bound;

/// Whether a row has a value for each answer column, of the column's kind.
///
/// # Errors
///
/// `WrongArity` with row 1 where there are more or fewer values; else `TypeMismatch` with row 1 and the first column whose
/// value has another kind.
pub fn check_row(bound: &Bound<'_>, row: &Row) -> Result<(), Refusal>
    ensures { MatchResult result (λ _. answer_fault bound.now.db.now bound.now.query.now row.now ≡ None) (λ e. answer_fault bound.now.db.now bound.now.query.now row.now ≡ Some e) }
{
    if row.len() as usize != bound.query.answer.len() {
        return Err(Refusal::WrongArity { row: 1 });
    }
    match kind_fault_of(bound, row) {
        None => Ok(()),
        Some(fault) => Err(fault),
    }
}

/// The first value that has another kind than its answer column.
fn kind_fault_of(bound: &Bound<'_>, row: &Row) -> Option<Refusal>
    requires { length row.now ≡ length bound.now.query.now.answer }
    ensures { result ≡ kind_fault 1 1 (answer_kinds bound.now.db.now bound.now.query.now) row.now }
{
    for (at, value) in row.as_slice().iter().enumerate() {
        let column = at as u32 + 1;
        let place = Place::Cell { row: 1, column };
        let kind = answer_kind(bound, at);
        if let Some(fault) = kind_mismatch(place, value.kind(), kind) {
            return Some(fault);
        }
    }
    None
}

/// The kind of an answer column.
pub fn answer_kind(bound: &Bound<'_>, at: usize) -> Kind
    requires { at < length bound.now.query.now.answer }
    ensures { slice_get (answer_kinds bound.now.db.now bound.now.query.now) at ≡ Some result }
{
    let col = bound.query.answer.as_slice()[at];
    kind_of_column(bound.db, bound.query.atoms.as_slice(), col)
}
