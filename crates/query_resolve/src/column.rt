//! The columns that a query names: each is of exactly one of its tables.

ghost use Rattle.std.specs.Prelude.{◌≡◌, ◌<◌, ◌≤◌, [], Some, None, MatchOption, All, length, drop};
ghost use Rattle.std.specs.List.{AllZip};
ghost use Rattle.cqa_model.specs.declared.limits.TheConstants.{MOST_ATOMS};
ghost use Rattle.cqa_model.specs.Shape.{column_at, nth_atom};
ghost use Rattle.refusals.specs.Refusal.{Checked};
ghost use Rattle.query_resolve.specs.Names.{columns_at, atom_scope, having, IsNextOwner};
ghost use Rattle.query_resolve.specs.Checks.{column_fault, column_kind, select_fault};
ghost use Rattle.query_resolve.specs.Resolved.{IsAtomOf, IsColumnOf};

use crate::faults::{unknown_column, unknown_table};
use crate::names::{place_of_column, place_of_name, table_columns};
use cqa_model::{Atom, ColRef};
use cqa_value::{Fail, Items, Kind, Name};
use refusals::Refusal;
use spj_syntax::RawCol;
use std::alloc::Global;
use table_blocks::Database;

/// The columns that a query selects.
pub fn columns_of(
    alloc: Global,
    db: &Database,
    names: &[Name],
    atoms: &[Atom],
    columns: &[RawCol],
) -> Result<Items<ColRef>, Fail<Refusal>>
    requires atoms { AllZip (IsAtomOf db.now) names.now atoms.now }
    requires few { length names.now ≤ MOST_ATOMS }
    ensures { Checked result (select_fault db.now names.now columns.now) (AllZip (IsColumnOf db.now names.now) columns.now) }
{
    let mut resolved = Vec::with_capacity(alloc, columns.len())?;
    for column in columns {
        resolved.push(column_of(alloc, db, names, atoms, column)?)?;
    }
    Ok(Items::from_vec(resolved))
}

/// The atom and the place of a column.
pub fn column_of(
    alloc: Global,
    db: &Database,
    names: &[Name],
    atoms: &[Atom],
    column: &RawCol,
) -> Result<ColRef, Fail<Refusal>>
    requires atoms { AllZip (IsAtomOf db.now) names.now atoms.now }
    requires few { length names.now ≤ MOST_ATOMS }
    ensures { Checked result (column_fault db.now names.now column.now.table column.now.name) (IsColumnOf db.now names.now column.now) }
{
    match &column.table {
        Some(table) => column_of_table(alloc, db, names, atoms, table, &column.name),
        None => column_of_any(alloc, db, names, atoms, &column.name),
    }
}

/// A column that is written with its table.
fn column_of_table(
    alloc: Global,
    db: &Database,
    names: &[Name],
    atoms: &[Atom],
    table: &Name,
    name: &Name,
) -> Result<ColRef, Fail<Refusal>>
    requires atoms { AllZip (IsAtomOf db.now) names.now atoms.now }
    requires few { length names.now ≤ MOST_ATOMS }
    ensures { Checked result (column_fault db.now names.now (Some table.now) name.now) (IsColumnOf db.now names.now (record { table = Some table.now; name = name.now })) }
{
    let Some(atom) = place_of_name(names, table) else {
        return Err(unknown_table(alloc, table));
    };
    let columns = table_columns(db, atoms[atom].table);
    let Some(col) = place_of_column(columns, name) else {
        let table = table.copy(alloc)?;
        return Err(unknown_column(alloc, Some(table), name));
    };
    Ok(ColRef {
        atom: atom as u32,
        col: col as u32,
    })
}

/// A column that is written without a table: exactly one of the tables has it.
fn column_of_any(
    alloc: Global,
    db: &Database,
    names: &[Name],
    atoms: &[Atom],
    name: &Name,
) -> Result<ColRef, Fail<Refusal>>
    requires atoms { AllZip (IsAtomOf db.now) names.now atoms.now }
    requires few { length names.now ≤ MOST_ATOMS }
    ensures { Checked result (column_fault db.now names.now None name.now) (IsColumnOf db.now names.now (record { table = None; name = name.now })) }
{
    let Some(col) = owner_from(db, atoms, name, 0) else {
        return Err(unknown_column(alloc, None, name));
    };
    match owner_from(db, atoms, name, col.atom as usize + 1) {
        None => Ok(col),
        Some(_) => {
            let name = name.copy(alloc)?;
            Err(Fail::Refused(Refusal::AmbiguousColumn { name }))
        }
    }
}

/// The first column of a name in the tables of the atoms from a place on.
fn owner_from(db: &Database, atoms: &[Atom], name: &Name, start: usize) -> Option<ColRef>
    requires there { All (λ atom. atom.table < length db.now) atoms.now }
    requires few { length atoms.now ≤ MOST_ATOMS }
    requires within { start ≤ length atoms.now }
    ensures { MatchOption result (having name.now (drop start (atom_scope db.now atoms.now)) ≡ []) (λ col. IsNextOwner (atom_scope db.now atoms.now) name.now start col) }
{
    for at in start..atoms.len() {
        if let Some(col) = place_of_column(table_columns(db, atoms[at].table), name) {
            return Some(ColRef {
                atom: at as u32,
                col: col as u32,
            });
        }
    }
    None
}

/// A column with its kind.
pub fn typed_column(
    alloc: Global,
    db: &Database,
    names: &[Name],
    atoms: &[Atom],
    column: &RawCol,
) -> Result<(ColRef, Kind), Fail<Refusal>>
    requires atoms { AllZip (IsAtomOf db.now) names.now atoms.now }
    requires few { length names.now ≤ MOST_ATOMS }
    ensures { Checked result (column_fault db.now names.now column.now.table column.now.name) (λ found. IsColumnOf db.now names.now column.now found.0 × (found.1 ≡ column_kind db.now names.now column.now)) }
{
    let col = column_of(alloc, db, names, atoms, column)?;
    let kind = kind_of_column(db, atoms, col);
    Ok((col, kind))
}

/// The kind of a column.
pub(crate) fn kind_of_column(db: &Database, atoms: &[Atom], col: ColRef) -> Kind
    requires atom { col.atom < length atoms.now }
    requires table { (nth_atom atoms.now col.atom).table < length db.now }
    requires column { col.col < length (columns_at db.now (nth_atom atoms.now col.atom).table) }
    ensures { result ≡ (column_at (columns_at db.now (nth_atom atoms.now col.atom).table) col.col).kind }
{
    table_columns(db, atoms[col.atom as usize].table)[col.col as usize].kind
}
