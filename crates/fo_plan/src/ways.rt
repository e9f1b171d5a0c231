//! The links of the atoms of a plan, with indexes of their tables.

ghost use Rattle.std.specs.Prelude.{◌≡◌, ◌<◌, ◌≤◌, ◌+◌, ◌++◌, ◌∷◌, ℕ, List, [], IfOk, OnOk, Contains, length, drop};
ghost use Rattle.cqa_model.specs.Shape.{AreDistinct};
ghost use Rattle.plan_rows.specs.Left.{AreQueryAtoms};
ghost use Rattle.plan_rows.specs.Links.{AreLinks, AreWays, atoms_on};

use crate::links::telling_atoms;
use crate::paths::{path_of, place_in};
use cqa_model::{ColRef, Plan};
use cqa_value::{Items, NoMemory};
use plan_rows::{JoinedColumns, Link, Setting};
use std::alloc::Global;
use table_blocks::Bound;

/// Adds links: the atoms behind the first ones, whose rows are taken, each with an index by what is known when it is come to.
fn add_links<'a>(
    setting: &Setting<'_, 'a>,
    atoms: &[u32],
    taken: usize,
    given: &[ColRef],
    links: &mut Items<Link<'a>>,
) -> Result<(), NoMemory>
    requires atoms { AreQueryAtoms setting.now.bound.now.query.now atoms.now }
    requires taken { taken ≤ length atoms.now }
    requires none { links.old ≡ [] }
    ensures links { OnOk result (AreLinks setting.now.bound.now.query.now setting.now.bound.now.db.now links.new) }
    ensures atoms { OnOk result (atoms_on links.new ≡ drop taken atoms.now) }
{
    for at in taken..atoms.len() {
        let (before, _) = atoms.split_at(at);
        let atom = atoms[at];
        let path = path_of(setting, before, given, atom)?;
        links.push(Link { atom, path })?;
    }
    Ok(())
}

/// The links of the atom at a place of an order.
fn links_at<'a>(
    setting: &Setting<'_, 'a>,
    order: &[u32],
    place: usize,
    given: &[ColRef],
) -> Result<Items<Link<'a>>, NoMemory>
    requires order { AreQueryAtoms setting.now.bound.now.query.now order.now }
    requires place { place < length order.now }
    ensures links { IfOk result (λ links. AreLinks setting.now.bound.now.query.now setting.now.bound.now.db.now links) }
    ensures later { IfOk result (λ links. (G : ℕ) → Contains (atoms_on links) G → Contains (drop (place + 1) order.now) G) }
{
    let atoms = telling_atoms(setting, order, place, given)?;
    let mut links = Items::new(setting.alloc);
    match add_links(setting, atoms.as_slice(), place, given, &mut links) {
        Ok(()) => Ok(links),
        Err(refused) => {
            drop(links);
            Err(refused)
        }
    }
}

/// The links of an atom; none where it isn't in the order.
fn links_of<'a>(
    setting: &Setting<'_, 'a>,
    order: &[u32],
    given: &[ColRef],
    atom: u32,
) -> Result<Items<Link<'a>>, NoMemory>
    requires order { AreQueryAtoms setting.now.bound.now.query.now order.now }
    requires distinct { AreDistinct order.now }
    ensures links { IfOk result (λ links. AreLinks setting.now.bound.now.query.now setting.now.bound.now.db.now links) }
    ensures behind { IfOk result (λ links. (front rest : List ℕ) → order.now ≡ front ++ atom ∷ rest → (G : ℕ) → Contains (atoms_on links) G → Contains rest G) }
{
    match place_in(order, atom) {
        Some(place) => links_at(setting, order, place, given),
        None => Ok(Items::new(setting.alloc)),
    }
}

/// Adds the links of each atom.
fn add_ways<'a>(
    setting: &Setting<'_, 'a>,
    order: &[u32],
    given: &[ColRef],
    ways: &mut Vec<Items<Link<'a>>>,
) -> Result<(), NoMemory>
    requires order { AreQueryAtoms setting.now.bound.now.query.now order.now }
    requires distinct { AreDistinct order.now }
    requires none { ways.old.items ≡ [] }
    ensures { OnOk result (AreWays setting.now.bound.now.query.now setting.now.bound.now.db.now order.now ways.new.items) }
{
    for atom in 0..setting.bound.query.atoms.len() {
        let links = links_of(setting, order, given, atom as u32)?;
        ways.push(links)?;
    }
    Ok(())
}

/// The links of each atom of a plan: where no column of an atom is known when a plan comes to it, the later atoms that link
/// it to the rows taken, in a shortest chain, with indexes by what is known when they are come to one after the other.
/// Values of the given columns are known from the beginning.
///
/// # Errors
///
/// `NoMemory` where memory is refused.
pub fn ways_of<'a>(
    alloc: Global,
    bound: &Bound<'a>,
    plan: &Plan,
    given: &[ColRef],
) -> Result<Vec<Items<Link<'a>>>, NoMemory>
    requires { AreQueryAtoms bound.now.query.now plan.now.order }
    ensures { IfOk result (λ ways. AreWays bound.now.query.now bound.now.db.now plan.now.order ways.items) }
{
    let mut ways = Vec::new(alloc);
    if plan.order.len() < 2 {
        return Ok(ways);
    }
    let setting = Setting {
        alloc,
        bound: &*bound,
        paths: &[],
        joined: JoinedColumns::new(bound),
    };
    match add_ways(&setting, plan.order.as_slice(), given, &mut ways) {
        Ok(()) => Ok(ways),
        Err(refused) => {
            drop(ways);
            Err(refused)
        }
    }
}
