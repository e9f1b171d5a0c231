//! Keys by the names of their columns: of a new table, and of one that is there.

ghost use Rattle.std.specs.Prelude.{◌≡◌, ◌<◌, ◌≤◌, Some, IfOk, length};
ghost use Rattle.cqa_value.specs.declared.row.TheConstants.{MOST_COLUMNS};
ghost use Rattle.refusals.specs.Refusal.{Checked};
ghost use Rattle.table_blocks.specs.Keys.{IsKey};
ghost use Rattle.table_blocks.specs.Tables.{kinds_at};
ghost use Rattle.query_resolve.specs.Names.{column_named};
ghost use Rattle.query_resolve.specs.Checks.{key_fault, names_fault, new_key_fault};
ghost use Rattle.query_resolve.specs.Resolved.{ArePlacesOf, IsKeyOf};

use crate::names::{place_of_column, place_of_name, table_columns};
use cqa_model::Column;
use cqa_value::{Fail, Items, Name};
use refusals::Refusal;
use std::alloc::Global;
use table_blocks::Database;

/// The key that a table is to have, by the names of its columns.
///
/// # Errors
///
/// `BadKey` with the first name that is no column or stood before; `NoMemory` where memory is refused.
pub fn resolve_key(
    alloc: Global,
    db: &Database,
    table: u32,
    names: &[Name],
) -> Result<Items<u32>, Fail<Refusal>>
    requires there { table < length db.now }
    requires some { 0 < length names.now }
    ensures checked { Checked result (new_key_fault db.now table names.now) (IsKeyOf db.now table names.now) }

    // The table can have it.
    ensures fit { IfOk result (λ key. IsKey (length (kinds_at db.now table)) key) }
{
    key_places(alloc, table_columns(db, table), names)
}

/// The places of different columns by their names.
pub fn key_places(
    alloc: Global,
    columns: &[Column],
    key: &[Name],
) -> Result<Items<u32>, Fail<Refusal>>
    requires { length columns.now ≤ MOST_COLUMNS }
    ensures { Checked result (names_fault columns.now key.now) (ArePlacesOf columns.now key.now) }
{
    let mut places = Vec::with_capacity(alloc, key.len())?;
    for (at, name) in key.iter().enumerate() {
        places.push(key_place(alloc, columns, name, &key[..at])?)?;
    }
    Ok(Items::from_vec(places))
}

/// The place of a key's column, whose name hasn't stood before.
fn key_place(
    alloc: Global,
    columns: &[Column],
    name: &Name,
    before: &[Name],
) -> Result<u32, Fail<Refusal>>
    requires { length columns.now ≤ MOST_COLUMNS }
    ensures { Checked result (key_fault columns.now before.now name.now) (λ place. column_named columns.now name.now ≡ Some place) }
{
    match place_of_column(columns, name) {
        Some(place) if place_of_name(before, name).is_none() => Ok(place as u32),
        _ => {
            let name = name.copy(alloc)?;
            Err(Fail::Refused(Refusal::BadKey { name }))
        }
    }
}
