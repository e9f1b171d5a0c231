//! The later atoms of an order by which an atom is linked to what is known when a plan comes to it.

ghost use Rattle.std.specs.Prelude.{◌≡◌, ◌<◌, ◌+◌, IfOk, IfSome, OnOk, Contains, length, take, drop};
ghost use Rattle.fo_plan.specs.Chaining.{GoesOn};

use crate::paths::is_known;
use cqa_model::ColRef;
use cqa_value::NoMemory;
use plan_rows::{Setting, is_told};
use table_blocks::Bound;

/// Whether the value of one of an atom's columns is given, or told by a row of some atoms.
fn is_linked(bound: &Bound<'_>, taken: &[u32], given: &[ColRef], atom: u32) -> bool {
    for col in 0..bound.width_of(atom) {
        let column = ColRef { atom, col };
        if given.contains(&column) || is_told(bound, taken, column) {
            return true;
        }
    }
    false
}

/// Whether all values of an atom's key are known once rows of some atoms are taken.
fn is_key_known(bound: &Bound<'_>, taken: &[u32], given: &[ColRef], atom: u32) -> bool {
    for col in bound.key_of(atom) {
        if !is_known(bound, taken, given, ColRef { atom, col: *col }) {
            return false;
        }
    }
    true
}

/// Whether other atoms may link an atom to what is known once rows of some atoms are taken: something is known, but none of the
/// atom's own columns is told by these rows, or given at the beginning, nor is its key known.
fn needs_links(bound: &Bound<'_>, taken: &[u32], given: &[ColRef], atom: u32) -> bool {
    let is_linked = if taken.is_empty() {
        given.is_empty() || is_linked(bound, taken, given, atom)
    } else {
        is_linked(bound, taken, &[], atom)
    };
    !is_linked && !is_key_known(bound, taken, given, atom)
}

/// One of these atoms that is linked to what is known once rows of others are taken: the first whose key is known, else
/// the first.
fn linked_atom(bound: &Bound<'_>, taken: &[u32], given: &[ColRef], atoms: &[u32]) -> Option<u32>
    ensures { IfSome result (Contains atoms.now) }
{
    let mut linked = None;
    for atom in atoms {
        if is_linked(bound, taken, given, *atom) {
            if is_key_known(bound, taken, given, *atom) {
                return Some(*atom);
            }
            if linked.is_none() {
                linked = Some(*atom);
            }
        }
    }
    linked
}

/// Parts atoms into those that are joined to one of these ends, and the others.
fn part(
    bound: &Bound<'_>,
    ends: &[u32],
    atoms: &[u32],
    joined: &mut Vec<u32>,
    others: &mut Vec<u32>,
) -> Result<(), NoMemory>
    ensures joined { OnOk result (GoesOn atoms.now joined.old.items joined.new.items) }
    ensures others { OnOk result (GoesOn atoms.now others.old.items others.new.items) }
    ensures size { OnOk result (length joined.new.items + length others.new.items ≡ length joined.old.items + length others.old.items + length atoms.now) }
{
    for atom in atoms {
        if is_linked(bound, ends, &[], *atom) {
            joined.push(*atom)?;
        } else {
            others.push(*atom)?;
        }
    }
    Ok(())
}

/// Adds to the atoms whose rows are taken one of these that is linked to what is known then, if there is one.
fn add_linked(
    bound: &Bound<'_>,
    given: &[ColRef],
    atoms: &[u32],
    taken: &mut Vec<u32>,
) -> Result<(), NoMemory>
    ensures { OnOk result (GoesOn atoms.now taken.old.items taken.new.items) }
{
    if let Some(link) = linked_atom(bound, taken.as_slice(), given, atoms) {
        taken.push(link)?;
    }
    Ok(())
}

/// Adds a shortest chain of atoms that leads from what is known once rows of some atoms are taken to one of these ends, if
/// there is one: each of the chain is joined to the next, and the last to an end.
fn add_chain(
    setting: &Setting<'_, '_>,
    given: &[ColRef],
    ends: &[u32],
    atoms: &[u32],
    taken: &mut Vec<u32>,
) -> Result<(), NoMemory>
    ensures { OnOk result (GoesOn atoms.now taken.old.items taken.new.items) }
{
    let bound = setting.bound;
    let mut joined = Vec::new(setting.alloc);
    let mut others = Vec::new(setting.alloc);
    part(bound, ends, atoms, &mut joined, &mut others)?;
    if joined.is_empty() {
        return Ok(());
    }
    if linked_atom(bound, taken.as_slice(), given, joined.as_slice()).is_none() {
        add_chain(setting, given, joined.as_slice(), others.as_slice(), taken)?;
    }
    add_linked(bound, given, joined.as_slice(), taken)
}

/// The atoms whose rows may tell of the rows of the atom at a place of an order: those before it, and where none of them is
/// linked to it the later ones that link it to them, in a shortest chain. Values of the given columns are known from the
/// beginning.
///
/// # Errors
///
/// `NoMemory` where memory is refused.
pub(crate) fn telling_atoms(
    setting: &Setting<'_, '_>,
    order: &[u32],
    place: usize,
    given: &[ColRef],
) -> Result<Vec<u32>, NoMemory>
    requires { place < length order.now }
    ensures { IfOk result (λ atoms. GoesOn (drop (place + 1) order.now) (take place order.now) atoms.items) }
{
    let (taken, others) = order.split_at(place);
    let (ends, later) = others.split_at(1);
    let mut atoms = Vec::from_slice(setting.alloc, taken)?;
    if needs_links(setting.bound, taken, given, order[place]) {
        add_chain(setting, given, ends, later, &mut atoms)?;
    }
    Ok(atoms)
}
