//! The conditions of a query: their columns are there, and both sides have one kind.

ghost use Rattle.std.specs.Prelude.{◌<◌, ◌≤◌, ◌^◌, ⊤, length};
ghost use Rattle.std.specs.List.{AllZip};
ghost use Rattle.cqa_model.specs.declared.limits.TheConstants.{MOST_ATOMS};
ghost use Rattle.refusals.specs.Refusal.{Checked};
ghost use Rattle.query_resolve.specs.Checks.{kinds_fault, cond_fault, where_fault};
ghost use Rattle.query_resolve.specs.Resolved.{IsAtomOf, IsCondOf};

use crate::column::typed_column;
use crate::faults::kind_mismatch;
use cqa_model::{Atom, Cond};
use cqa_value::{Fail, Items, Kind, Name};
use refusals::{Place, Refusal};
use spj_syntax::RawCond;
use std::alloc::Global;
use table_blocks::Database;

/// The conditions of a query.
pub fn conds_of(
    alloc: Global,
    db: &Database,
    names: &[Name],
    atoms: &[Atom],
    conds: &[RawCond],
) -> Result<Items<Cond>, Fail<Refusal>>
    requires atoms { AllZip (IsAtomOf db.now) names.now atoms.now }
    requires few { length names.now ≤ MOST_ATOMS }
    requires numbered { length conds.now < 2 ^ 32 }
    ensures { Checked result (where_fault db.now names.now conds.now) (AllZip (IsCondOf db.now names.now) conds.now) }
{
    let mut resolved = Vec::with_capacity(alloc, conds.len())?;
    for (at, cond) in conds.iter().enumerate() {
        resolved.push(cond_of(alloc, db, names, atoms, cond, at as u32 + 1)?)?;
    }
    Ok(Items::from_vec(resolved))
}

/// The condition of a number.
fn cond_of(
    alloc: Global,
    db: &Database,
    names: &[Name],
    atoms: &[Atom],
    cond: &RawCond,
    number: u32,
) -> Result<Cond, Fail<Refusal>>
    requires atoms { AllZip (IsAtomOf db.now) names.now atoms.now }
    requires few { length names.now ≤ MOST_ATOMS }
    ensures { Checked result (cond_fault db.now names.now number cond.now) (IsCondOf db.now names.now cond.now) }
{
    match cond {
        RawCond::Join { left, right } => {
            let (left, left_kind) = typed_column(alloc, db, names, atoms, left)?;
            let (right, right_kind) = typed_column(alloc, db, names, atoms, right)?;
            check_kinds(number, left_kind, right_kind)?;
            Ok(Cond::Join { left, right })
        }
        RawCond::Test { col, op, value } => {
            let (col, kind) = typed_column(alloc, db, names, atoms, col)?;
            check_kinds(number, kind, value.kind())?;
            let value = value.copy(alloc)?;
            Ok(Cond::Test {
                col,
                op: *op,
                value,
            })
        }
    }
}

/// Whether the two sides of the condition of a number have one kind.
pub fn check_kinds(number: u32, a: Kind, b: Kind) -> Result<(), Fail<Refusal>>
    ensures { Checked result (kinds_fault number a b) (λ _. ⊤) }
{
    match kind_mismatch(Place::Condition(number), a, b) {
        None => Ok(()),
        Some(refusal) => Err(Fail::Refused(refusal)),
    }
}
