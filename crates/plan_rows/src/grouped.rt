//! An order of atoms, group by group: those that chains of joins link stand together, so that no table is gone over for the
//! rows of others that no join links to it.

ghost use Rattle.std.specs.Prelude.{◌≡◌, ◌<◌, ℕ, [], IfOk, IfSome, OnOk, IsFalse, MatchOption, Contains, length};
ghost use Rattle.cqa_model.specs.declared.limits.TheConstants.{MOST_ATOMS};
ghost use Rattle.key_closure.specs.Sets.{HasAtom};
ghost use Rattle.plan_rows.specs.Left.{AreQueryAtoms};
ghost use Rattle.plan_rows.specs.Links.{AreWays};
ghost use Rattle.plan_rows.specs.Grouping.{AreUnlinked, IsClosed, IsGroupParted, IsAtomSplit, GoesOnAlike, IsRegrouped};

use crate::links::{Link, are_behind};
use crate::setting::Setting;
use crate::shared::is_linked_to;
use cqa_model::{ColRef, MOST_ATOMS};
use cqa_value::{Items, NoMemory};
use key_closure::AtomSet;
use table_blocks::Bound;

/// Whether two atoms have columns that are linked.
fn are_joined(bound: &Bound<'_>, atom: u32, other: u32) -> bool
    ensures { IsFalse result → AreUnlinked bound.now.query.now atom other }
{
    for col in 0..bound.width_of(other) {
        if is_linked_to(bound, atom, ColRef { atom: other, col }) {
            return true;
        }
    }
    false
}

/// Whether an atom is joined to one of a group.
fn is_joined(bound: &Bound<'_>, group: &AtomSet, atom: u32) -> bool
    ensures { IsFalse result → (F : ℕ) → F < length bound.now.query.now.atoms → HasAtom group.now F → AreUnlinked bound.now.query.now F atom }
{
    for other in 0..bound.query.atoms.len() as u32 {
        if group.has(other) && are_joined(bound, other, atom) {
            return true;
        }
    }
    false
}

/// The first of some atoms that is outside of a group and joined to one of it.
fn next_joined(setting: &Setting<'_, '_>, group: &AtomSet, atoms: &[u32]) -> Option<u32>
    requires { AreQueryAtoms setting.now.bound.now.query.now atoms.now }
    ensures { MatchOption result (IsClosed setting.now.bound.now.query.now group.now atoms.now) (λ F. F < length setting.now.bound.now.query.now.atoms) }
{
    for atom in atoms {
        if !group.has(*atom) && is_joined(setting.bound, group, *atom) {
            return Some(*atom);
        }
    }
    None
}

/// An atom with those of others that chains of joins link to it.
fn group_of(setting: &Setting<'_, '_>, atom: u32, atoms: &[u32]) -> AtomSet
    requires atom { atom < length setting.now.bound.now.query.now.atoms }
    requires atoms { AreQueryAtoms setting.now.bound.now.query.now atoms.now }
    ensures { IsClosed setting.now.bound.now.query.now result atoms.now }
{
    let mut group = AtomSet::new();
    group.insert_if(atom, true);
    // Each turn but the last puts an atom in.
    for _ in 0..MOST_ATOMS {
        let Some(next) = next_joined(setting, &group, atoms) else {
            return group;
        };
        group.insert_if(next, true);
    }
    AtomSet::new()
}

/// Parts atoms into those of a group, which are added to an order, and the others.
fn part(
    group: &AtomSet,
    atoms: &[u32],
    order: &mut Vec<u32>,
    others: &mut Vec<u32>,
) -> Result<(), NoMemory>
    requires small { (F : ℕ) → Contains atoms.now F → F < MOST_ATOMS }
    requires none { others.old.items ≡ [] }
    ensures { OnOk result (IsGroupParted group.now atoms.now order.old.items order.new.items others.new.items) }
{
    for atom in atoms {
        if group.has(*atom) {
            order.push(*atom)?;
        } else {
            others.push(*atom)?;
        }
    }
    Ok(())
}

/// Adds to an order those of some atoms that chains of joins link to one. The others are left.
fn add_group(
    setting: &Setting<'_, '_>,
    atom: u32,
    atoms: &[u32],
    order: &mut Vec<u32>,
) -> Result<Vec<u32>, NoMemory>
    requires atom { atom < length setting.now.bound.now.query.now.atoms }
    requires atoms { AreQueryAtoms setting.now.bound.now.query.now atoms.now }
    ensures { IfOk result (λ others. IsAtomSplit setting.now.bound.now.query.now atoms.now order.old.items order.new.items others.items) }
{
    let group = group_of(setting, atom, atoms);
    let mut others = Vec::new(setting.alloc);
    part(&group, atoms, order, &mut others)?;
    Ok(others)
}

/// Adds atoms to an order, those first that chains of joins link to another, and then group by group.
fn add_groups(
    setting: &Setting<'_, '_>,
    first: u32,
    atoms: &[u32],
    order: &mut Vec<u32>,
) -> Result<(), NoMemory>
    requires first { first < length setting.now.bound.now.query.now.atoms }
    requires atoms { AreQueryAtoms setting.now.bound.now.query.now atoms.now }
    ensures { OnOk result (GoesOnAlike setting.now.bound.now.query.now atoms.now order.old.items order.new.items) }
{
    let mut left = Vec::from_slice(setting.alloc, atoms)?;
    let mut atom = first;
    // Each turn but the first takes an atom or more.
    for _ in 0..MOST_ATOMS {
        left = add_group(setting, atom, left.as_slice(), order)?;
        let rest = left.as_slice();
        if rest.is_empty() {
            return Ok(());
        }
        atom = rest[0];
    }
    order.extend_from_slice(left.as_slice())?;
    Ok(())
}

/// An order of the same atoms that begins with the same one, and in which those that chains of joins link stand together.
fn grouped(setting: &Setting<'_, '_>, order: &[u32]) -> Result<Vec<u32>, NoMemory>
    requires { AreQueryAtoms setting.now.bound.now.query.now order.now }
    ensures { IfOk result (λ other. IsRegrouped setting.now.bound.now.query.now order.now other.items) }
{
    let mut other = Vec::new(setting.alloc);
    match order {
        [] => Ok(other),
        [first, rest @ ..] => {
            other.push(*first)?;
            add_groups(setting, *first, rest, &mut other)?;
            Ok(other)
        }
    }
}

/// The same where the links of each atom are behind it in that order as well; `None` where they aren't, or memory is refused.
pub fn grouped_along(
    setting: &Setting<'_, '_>,
    order: &[u32],
    ways: &[Items<Link<'_>>],
) -> Option<Vec<u32>>
    requires order { AreQueryAtoms setting.now.bound.now.query.now order.now }
    requires ways { AreWays setting.now.bound.now.query.now setting.now.bound.now.db.now order.now ways.now }
    ensures same { IfSome result (λ other. IsRegrouped setting.now.bound.now.query.now order.now other.items) }
    ensures ways { IfSome result (λ other. AreWays setting.now.bound.now.query.now setting.now.bound.now.db.now other.items ways.now) }
{
    match grouped(setting, order) {
        Ok(other) => {
            if are_behind(other.as_slice(), ways) {
                return Some(other);
            }
            None
        }
        Err(_) => None,
    }
}
