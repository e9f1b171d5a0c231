//! The places that the rows of one atom have in witnesses, in order.
//! A place that several witnesses share stands there once.

ghost use Rattle.std.specs.Prelude.{◌≡◌, ◌<◌, Contains, IfOk, length};
ghost use Rattle.join_access.specs.Listing.{names_of};
ghost use Rattle.join_access.specs.declared.witness.Witness.{Witness as Named};
ghost use Rattle.row_witnesses.specs.Columns.{place_at, AreColumn, AreColumnsOfAtoms};

use cqa_value::{Items, NoMemory};
use join_access::{Witness, put_in_order};
use std::alloc::Global;

/// The place of the row of an atom in a witness.
pub fn place_of(witness: &Witness, atom: usize) -> u32
    requires { atom < length witness.now.rows }
    ensures { result ≡ place_at witness.now.rows atom }
{
    witness.rows.as_slice()[atom].place
}

/// The places of the rows of an atom in witnesses, in order, each once.
fn column(alloc: Global, witnesses: &[Witness], atom: usize) -> Result<Vec<u32>, NoMemory>
    requires { (w : Named) → Contains witnesses.now w → atom < length w.rows }
    ensures { IfOk result (λ places. AreColumn (names_of witnesses.now) atom places.items) }
{
    let mut places = Vec::with_capacity(alloc, witnesses.len())?;
    for witness in witnesses {
        places.push(place_of(witness, atom))?;
    }
    put_in_order(&mut places);
    Ok(places)
}

/// The places of the rows of each of so many atoms in witnesses.
///
/// # Errors
///
/// `NoMemory` where memory is refused.
pub(crate) fn columns_of(
    alloc: Global,
    witnesses: &[Witness],
    atoms: usize,
) -> Result<Items<Items<u32>>, NoMemory>
    requires { (w : Named) → Contains witnesses.now w → length w.rows ≡ atoms }
    ensures size { IfOk result (λ columns. length columns ≡ atoms) }
    ensures columns { IfOk result (AreColumnsOfAtoms (names_of witnesses.now)) }
{
    let mut columns = Vec::with_capacity(alloc, atoms)?;
    for atom in 0..atoms {
        columns.push(Items::from_vec(column(alloc, witnesses, atom)?))?;
    }
    Ok(Items::from_vec(columns))
}
