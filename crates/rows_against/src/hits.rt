//! Which rows hit which witnesses: for each atom and each witness, the number of the row that hits it there.
//! A row is looked for once for each row of the witnesses, and not for each witness.

ghost use Rattle.std.specs.Prelude.{◌≡◌, ◌<◌, ◌+◌, ℕ, [], Contains, IfOk, None, length, slice_index, slice_index_or};
ghost use Rattle.join_access.specs.Listing.{names_of};
ghost use Rattle.rows_against.specs.Chosen.{AreChosenAgainst};
ghost use Rattle.rows_against.specs.Numbers.{AreHits, AreHitsAt, AreRivals, TableBeginsAt};

use crate::rival::{first_from, rival_of};
use cqa_model::RowId;
use cqa_value::{Items, NoMemory};
use row_witnesses::{RowWitnesses, place_of};
use std::alloc::Global;

/// The numbers of the rows that are others of the blocks of the witnesses' rows of an atom, by their places.
fn rivals(
    alloc: Global,
    witnesses: &RowWitnesses<'_>,
    at: usize,
    names: &[RowId],
    from: usize,
) -> Result<Vec<Option<usize>>, NoMemory>
    requires there { at < length witnesses.now.bound.now.query.now.atoms }
    requires chosen { AreChosenAgainst witnesses.now.bound.now.db.now witnesses.now.bound.now.query.now (names_of witnesses.now.list) names.now }
    requires begins { TableBeginsAt witnesses.now.bound.now.query.now names.now at from }
    ensures size { IfOk result (λ found. length found.items ≡ length (slice_index_or witnesses.now.columns at [])) }
    ensures rivals { IfOk result (λ found. AreRivals witnesses.now.bound.now.db.now witnesses.now.bound.now.query.now names.now at (slice_index_or witnesses.now.columns at []) found.items) }
{
    let bound = witnesses.bound;
    let rows = bound.rows_of(at as u32);
    let key = bound.key_of(at as u32);
    let table = bound.table_of(at as u32);
    let places = witnesses.column(at);
    let mut found = Vec::with_capacity(alloc, places.len())?;
    for place in places {
        let own = RowId {
            table,
            place: *place,
        };
        found.push(rival_of(&rows, key, names, from, own))?;
    }
    Ok(found)
}

/// The number that stands at the index of a place.
fn rival_at(places: &[u32], found: &[Option<usize>], place: u32) -> Option<usize>
    requires size { length found.now ≡ length places.now }
    requires rising { (i j : ℕ) → i < j → j < length places.now → slice_index places.now i < slice_index places.now j }
    requires there { Contains places.now place }
    ensures { (i : ℕ) × (i < length places.now) × (slice_index places.now i ≡ place) × (slice_index_or found.now i None ≡ result) }
{
    match places.binary_search(&place) {
        Ok(at) => found[at],
        Err(_) => None,
    }
}

/// The numbers of the rows that hit witnesses at an atom.
fn hits_at(
    alloc: Global,
    witnesses: &RowWitnesses<'_>,
    at: usize,
    names: &[RowId],
    from: usize,
) -> Result<Vec<Option<usize>>, NoMemory>
    requires there { at < length witnesses.now.bound.now.query.now.atoms }
    requires chosen { AreChosenAgainst witnesses.now.bound.now.db.now witnesses.now.bound.now.query.now (names_of witnesses.now.list) names.now }
    requires begins { TableBeginsAt witnesses.now.bound.now.query.now names.now at from }
    ensures size { IfOk result (λ hits. length hits.items ≡ length witnesses.now.list) }
    ensures hits { IfOk result (λ hits. AreHitsAt witnesses.now.bound.now.db.now witnesses.now.bound.now.query.now (names_of witnesses.now.list) names.now at hits.items) }
{
    let found = rivals(alloc, witnesses, at, names, from)?;
    let places = witnesses.column(at);
    let list = witnesses.list.as_slice();
    let mut hits = Vec::with_capacity(alloc, list.len())?;
    for witness in list {
        let place = place_of(witness, at);
        hits.push(rival_at(places, found.as_slice(), place))?;
    }
    Ok(hits)
}

/// The index behind the names of an atom's table.
fn behind(witnesses: &RowWitnesses<'_>, at: usize, names: &[RowId], from: usize) -> usize
    requires there { at < length witnesses.now.bound.now.query.now.atoms }
    requires chosen { AreChosenAgainst witnesses.now.bound.now.db.now witnesses.now.bound.now.query.now (names_of witnesses.now.list) names.now }
    requires begins { TableBeginsAt witnesses.now.bound.now.query.now names.now at from }
    ensures { TableBeginsAt witnesses.now.bound.now.query.now names.now (at + 1) result }
{
    let table = witnesses.bound.table_of(at as u32);
    let count = witnesses.bound.rows_of(at as u32).len();
    first_from(names, from, table, count as u32)
}

/// The numbers of the rows that hit witnesses, atom by atom.
///
/// # Errors
///
/// `NoMemory` where memory is refused.
pub(crate) fn all_hits(
    alloc: Global,
    witnesses: &RowWitnesses<'_>,
    names: &[RowId],
) -> Result<Items<Items<Option<usize>>>, NoMemory>
    requires { AreChosenAgainst witnesses.now.bound.now.db.now witnesses.now.bound.now.query.now (names_of witnesses.now.list) names.now }
    ensures atoms { IfOk result (λ hits. length hits ≡ length witnesses.now.bound.now.query.now.atoms) }
    ensures sizes { IfOk result (λ hits. (F : ℕ) → F < length hits → length (slice_index_or hits F []) ≡ length witnesses.now.list) }
    ensures hits { IfOk result (AreHits witnesses.now.bound.now.db.now witnesses.now.bound.now.query.now (names_of witnesses.now.list) names.now) }
{
    let atoms = witnesses.bound.query.atoms.len();
    let mut hits = Vec::with_capacity(alloc, atoms)?;
    let mut from = 0;
    for at in 0..atoms {
        hits.push(Items::from_vec(hits_at(alloc, witnesses, at, names, from)?))?;
        from = behind(witnesses, at, names, from);
    }
    Ok(Items::from_vec(hits))
}
