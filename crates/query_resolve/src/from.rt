//! The tables of a query: each is there, and named once.

ghost use Rattle.std.specs.Prelude.{◌≡◌, ◌<◌, ℕ, List, [], Some, IfOk, length};
ghost use Rattle.std.specs.List.{AllZip};
ghost use Rattle.cqa_model.specs.Database.{IsDatabase};
ghost use Rattle.refusals.specs.Refusal.{Checked};
ghost use Rattle.table_blocks.specs.Tables.{table_named};
ghost use Rattle.query_resolve.specs.Checks.{first_fault, from_fault};
ghost use Rattle.query_resolve.specs.Resolved.{IsAtomOf};

use crate::faults::unknown_table;
use crate::names::place_of_name;
use cqa_model::Atom;
use cqa_value::{Fail, Items, Name, NoMemory};
use refusals::Refusal;
use std::alloc::Global;
use table_blocks::Database;

/// The atoms of different tables by their names.
pub fn atoms_of(alloc: Global, db: &Database, names: &[Name]) -> Result<Items<Atom>, Fail<Refusal>>
    ensures checked { Checked result (first_fault (from_fault db.now) [] names.now) (AllZip (IsAtomOf db.now) names.now) }
    ensures database { IsDatabase db.now }
{
    let most = names.len().min(db.count() as usize);
    let mut atoms = Vec::with_capacity(alloc, most)?;
    for (at, name) in names.iter().enumerate() {
        atoms.push(atom_of(alloc, db, name, &names[..at])?)?;
    }
    Ok(Items::from_vec(atoms))
}

/// The table of a name, where the query hasn't named it before.
fn named_table(
    alloc: Global,
    db: &Database,
    name: &Name,
    before: &[Name],
) -> Result<u32, Fail<Refusal>>
    ensures { Checked result (from_fault db.now before.now name.now) (λ table. table_named db.now name.now ≡ Some table) }
{
    let Some(table) = db.find(name) else {
        return Err(unknown_table(alloc, name));
    };
    if place_of_name(before, name).is_some() {
        let name = name.copy(alloc)?;
        return Err(Fail::Refused(Refusal::SelfJoin { name }));
    }
    Ok(table)
}

/// The atom of a table.
fn atom_at(alloc: Global, db: &Database, table: u32) -> Result<Atom, NoMemory>
    requires { table < length db.now }
    ensures { IfOk result (λ atom. (name : List ℕ) → table_named db.now name ≡ Some table → IsAtomOf db.now name atom) }
{
    let schema = db.schema(table);
    let key = Items::from_slice(alloc, schema.key.as_slice())?;
    Ok(Atom {
        table,
        width: schema.columns.len() as u32,
        key,
        strict: schema.strict,
    })
}

/// The atom of a name, where the query hasn't named its table before.
fn atom_of(
    alloc: Global,
    db: &Database,
    name: &Name,
    before: &[Name],
) -> Result<Atom, Fail<Refusal>>
    ensures { Checked result (from_fault db.now before.now name.now) (IsAtomOf db.now name.now) }
{
    let table = named_table(alloc, db, name, before)?;
    let atom = atom_at(alloc, db, table)?;
    Ok(atom)
}
