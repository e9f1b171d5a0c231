//! A query as it is written against a database, check by check.

ghost use Rattle.std.specs.Prelude.{⊤};
ghost use Rattle.refusals.specs.Refusal.{Checked};
ghost use Rattle.query_resolve.specs.Checks.{size_fault, query_fault};
ghost use Rattle.query_resolve.specs.Resolved.{IsQueryOf};

use crate::column::columns_of;
use crate::condition::conds_of;
use crate::faults::limit;
use crate::from::atoms_of;
use cqa_model::{MOST_ANSWER_COLUMNS, MOST_ATOMS, Query};
use cqa_value::Fail;
use refusals::{LimitKind, Refusal};
use spj_syntax::Select;
use std::alloc::Global;
use table_blocks::Database;

/// The query that is written, over a database's tables.
///
/// # Errors
///
/// The first that applies: `Limit` with the atoms or the answer; for each table `UnknownTable` or `SelfJoin`; for each
/// selected column, and then for each side of each condition, `UnknownTable`, `UnknownColumn` or `AmbiguousColumn`, and
/// behind the sides `TypeMismatch` with the condition's number, from 1. `NoMemory` where memory is refused.
pub fn resolve(alloc: Global, db: &Database, select: &Select) -> Result<Query, Fail<Refusal>>
    ensures { Checked result (query_fault db.now select.now) (IsQueryOf db.now select.now) }
{
    check_sizes(select)?;
    let names = select.tables.as_slice();
    let atoms = atoms_of(alloc, db, names)?;
    let answer = columns_of(
        alloc,
        db,
        names,
        atoms.as_slice(),
        select.columns.as_slice(),
    )?;
    let conds = conds_of(alloc, db, names, atoms.as_slice(), select.conds.as_slice())?;
    Ok(Query {
        atoms,
        conds,
        answer,
    })
}

/// Whether a query names few enough tables and columns.
fn check_sizes(select: &Select) -> Result<(), Fail<Refusal>>
    ensures { Checked result (size_fault select.now) (λ _. ⊤) }
{
    if select.tables.as_slice().len() > MOST_ATOMS as usize {
        return Err(limit(LimitKind::Atoms));
    }
    if select.columns.as_slice().len() > MOST_ANSWER_COLUMNS {
        return Err(limit(LimitKind::Answer));
    }
    Ok(())
}
