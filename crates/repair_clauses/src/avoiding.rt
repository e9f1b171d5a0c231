//! Whether a repair can keep out of each of a row's witnesses by free rows alone: rows that are in no witness.
//! A row of a witness whose block has a free row is loose, since a repair can keep the free row in its place.

ghost use Rattle.std.specs.Prelude.{◌≡◌, ◌⊎◌, ◌<◌, ℕ, [], false, true, Contains, IfOk, IsTrue, length, slice_index_or};
ghost use Rattle.cqa_model.specs.Certain.{IsCertain};
ghost use Rattle.join_access.specs.Listing.{names_of};
ghost use Rattle.join_access.specs.declared.witness.Witness.{Witness as Named};
ghost use Rattle.repair_clauses.specs.Avoiding.{AreMarkedWitnesses};
ghost use Rattle.row_lists.specs.Loose.{IsLooseAt};
ghost use Rattle.row_witnesses.specs.Columns.{place_at};

use cqa_value::NoMemory;
use join_access::Witness;
use row_lists::loosening::{is_loose, loose_places};
use row_witnesses::{RowWitnesses, place_of};
use std::alloc::Global;

/// Marks the witnesses whose row of an atom is loose.
fn mark_witnesses(
    witnesses: &[Witness],
    atom: usize,
    places: &[u32],
    loose: &[bool],
    marks: &mut Vec<bool>,
)
    requires rows { (w : Named) → Contains witnesses.now w → atom < length w.rows }
    requires loose { length loose.now ≡ length places.now }
    requires size { length marks.old.items ≡ length witnesses.now }
    ensures size { length marks.new.items ≡ length witnesses.now }
    ensures marks { (i : ℕ) → i < length witnesses.now → slice_index_or marks.new.items i false ≡ true →
        (slice_index_or marks.old.items i false ≡ true) ⊎ IsLooseAt places.now loose.now (place_at (slice_index_or (names_of witnesses.now) i []) atom) }
{
    for at in 0..witnesses.len() {
        let is_found = is_loose(places, loose, place_of(&witnesses[at], atom));
        marks[at] = marks[at] || is_found;
    }
}

/// Marks the witnesses whose row of the atom at a place is loose.
fn mark_atom(
    alloc: Global,
    witnesses: &RowWitnesses<'_>,
    at: usize,
    marks: &mut Vec<bool>,
) -> Result<(), NoMemory>
    requires there { at < length witnesses.now.bound.now.query.now.atoms }
    requires size { length marks.old.items ≡ length witnesses.now.list }
    requires marks { AreMarkedWitnesses witnesses.now.bound.now.query.now witnesses.now.bound.now.db.now (names_of witnesses.now.list) marks.old.items }
    ensures size { IfOk result (λ done. length marks.new.items ≡ length witnesses.now.list) }
    ensures marks { IfOk result (λ done. AreMarkedWitnesses witnesses.now.bound.now.query.now witnesses.now.bound.now.db.now (names_of witnesses.now.list) marks.new.items) }
{
    let places = witnesses.column(at);
    let rows = witnesses.bound.rows_of(at as u32);
    let key = witnesses.bound.key_of(at as u32);
    let loose = loose_places(alloc, &rows, key, places)?;
    mark_witnesses(
        witnesses.list.as_slice(),
        at,
        places,
        loose.as_slice(),
        marks,
    );
    Ok(())
}

/// Whether all marks are set.
fn are_all_set(marks: &[bool]) -> bool
    ensures { IsTrue result → (i : ℕ) → i < length marks.now → slice_index_or marks.now i false ≡ true }
{
    !marks.contains(&false)
}

/// Whether each of a row's witnesses has a row whose block has a row that is in no witness. A repair that keeps such rows
/// holds none of the witnesses, so the row isn't certain; where the answer is no, it may be certain or not.
///
/// It looks at the rows of the witnesses, and at one row on each side of those that stand together, so its time doesn't grow
/// with the blocks.
///
/// # Errors
///
/// `NoMemory` where memory is refused.
pub fn are_avoidable(alloc: Global, witnesses: &RowWitnesses<'_>) -> Result<bool, NoMemory>
    ensures { IfOk result (λ avoidable. IsTrue avoidable → IsCertain witnesses.now.bound.now.db.now witnesses.now.bound.now.query.now witnesses.now.row.now → ⊥) }
{
    let mut marks = vec![in alloc; false; witnesses.list.len()]?;
    for at in 0..witnesses.bound.query.atoms.len() {
        mark_atom(alloc, witnesses, at, &mut marks)?;
    }
    Ok(are_all_set(marks.as_slice()))
}
