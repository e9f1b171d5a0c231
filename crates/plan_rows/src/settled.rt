//! Whether the rows taken settle the answer: no answer column is of an atom that is left.

ghost use Rattle.std.specs.Prelude.{◌≢◌, ◌↔◌, All, IsTrue};
ghost use Rattle.plan_rows.specs.Left.{IsAnswerSettled};

use cqa_model::{ColRef, Query};

/// Whether no answer column is of an atom.
fn is_settled(columns: &[ColRef], atom: u32) -> bool
    ensures { IsTrue result ↔ All (λ column. column.atom ≢ atom) columns.now }
{
    columns.iter().all(|column| column.atom != atom)
}

/// Whether no answer column is of one of these atoms.
pub fn are_settled(query: &Query, atoms: &[u32]) -> bool
    ensures { IsTrue result ↔ IsAnswerSettled query.now atoms.now }
{
    atoms
        .iter()
        .all(|atom| is_settled(query.answer.as_slice(), *atom))
}
