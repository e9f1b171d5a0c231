//! The witnesses of a row for all parts of a union, by the names of their rows, up to the limit.

ghost use Rattle.std.specs.Prelude.{◌≡◌, ◌+◌, ◌++◌, ◌≤◌, ◌<◌, [], IfOk, IfErr, length};
ghost use Rattle.join_access.specs.Listing.{IsOver, names_of};
ghost use Rattle.join_access.specs.declared.witness.TheConstants.{MOST_WITNESSES};
ghost use Rattle.part_search.specs.Parts.{AreNamesIn, HasTooManyIn};
ghost use Rattle.part_search.specs.Lookups.{AreBoundsOf, AreLookupsOf, HasLengthOf, TellCandidates};

use crate::bound_parts::BoundParts;
use crate::lookups::{bounds_of, lookups_of};
use cqa_value::{Fail, Items, Row};
use join_witness::{Lookup, MOST_WITNESSES, TooMany, Witness, witness_list};
use std::alloc::Global;
use table_blocks::Bound;

/// Puts the witnesses of a part behind those of the parts before it, unless they are too many together.
fn put_behind(found: Items<Witness>, lists: &mut Vec<Witness>) -> Result<(), Fail<TooMany>>
    requires few { length lists.old.items ≤ MOST_WITNESSES }
    ensures items { IfOk result (λ done. lists.new.items ≡ lists.old.items ++ found) }
    ensures few { IfOk result (λ done. length lists.new.items ≤ MOST_WITNESSES) }
    ensures over { IfErr result (IsOver (MOST_WITNESSES < length lists.old.items + length found)) }
{
    if found.len() > MOST_WITNESSES - lists.len() {
        drop(found);
        return Err(Fail::Refused(TooMany));
    }
    lists.append(&mut found.into_vec())?;
    Ok(())
}

/// Puts the witnesses of a row for all parts into an empty list, part by part, and tells of which parts it has one. It ends once
/// there are more than `MOST_WITNESSES` of them together.
fn gather_into(
    alloc: Global,
    parts: &BoundParts<'_>,
    lookups: &mut [Lookup<'_>],
    row: &Row,
    lists: &mut Vec<Witness>,
    given: &mut Vec<bool>,
) -> Result<(), Fail<TooMany>>
    requires lookups { AreLookupsOf parts.now.db.now parts.now.queries.now lookups.old }
    requires long { HasLengthOf parts.now.queries.now row.now }
    requires none { lists.old.items ≡ [] }
    requires untold { given.old.items ≡ [] }
    ensures lookups { AreLookupsOf parts.now.db.now parts.now.queries.now lookups.new }
    ensures names { IfOk result (λ done. AreNamesIn parts.now.queries.now parts.now.db.now row.now (names_of lists.new.items)) }
    ensures few { IfOk result (λ done. length lists.new.items ≤ MOST_WITNESSES) }
    ensures given { IfOk result (λ done. TellCandidates parts.now.db.now parts.now.queries.now row.now given.new.items) }
    ensures over { IfErr result (IsOver (HasTooManyIn parts.now.queries.now parts.now.db.now row.now)) }
{
    for at in 0..parts.queries.len() {
        let found = witness_list(alloc, &mut lookups[at], row)?;
        let gives = !found.is_empty();
        put_behind(found, lists)?;
        given.push(gives)?;
    }
    Ok(())
}

/// The witnesses of a row for all parts, part by part, and whether it has one for each part, in place of what was told before.
///
/// # Errors
///
/// `TooMany` exactly where there are more than `MOST_WITNESSES`; `NoMemory` where memory is refused.
pub fn gather(
    alloc: Global,
    parts: &BoundParts<'_>,
    lookups: &mut [Lookup<'_>],
    row: &Row,
    given: &mut Vec<bool>,
) -> Result<Vec<Witness>, Fail<TooMany>>
    requires lookups { AreLookupsOf parts.now.db.now parts.now.queries.now lookups.old }
    requires long { HasLengthOf parts.now.queries.now row.now }
    ensures lookups { AreLookupsOf parts.now.db.now parts.now.queries.now lookups.new }
    ensures names { IfOk result (λ lists. AreNamesIn parts.now.queries.now parts.now.db.now row.now (names_of lists.items)) }
    ensures few { IfOk result (λ lists. length lists.items ≤ MOST_WITNESSES) }
    ensures given { IfOk result (λ lists. TellCandidates parts.now.db.now parts.now.queries.now row.now given.new.items) }
    ensures over { IfErr result (IsOver (HasTooManyIn parts.now.queries.now parts.now.db.now row.now)) }
{
    given.clear();
    let mut lists = Vec::new(alloc);
    match gather_into(alloc, parts, lookups, row, &mut lists, given) {
        Ok(()) => Ok(lists),
        Err(fault) => {
            drop(lists);
            Err(fault)
        }
    }
}

/// The same for one row, where each part is over the database.
fn gather_once(
    alloc: Global,
    parts: &BoundParts<'_>,
    bounds: &[Bound<'_>],
    row: &Row,
) -> Result<Vec<Witness>, Fail<TooMany>>
    requires bounds { AreBoundsOf parts.now.db.now parts.now.queries.now bounds.now }
    requires long { HasLengthOf parts.now.queries.now row.now }
    ensures names { IfOk result (λ lists. AreNamesIn parts.now.queries.now parts.now.db.now row.now (names_of lists.items)) }
    ensures few { IfOk result (λ lists. length lists.items ≤ MOST_WITNESSES) }
    ensures over { IfErr result (IsOver (HasTooManyIn parts.now.queries.now parts.now.db.now row.now)) }
{
    let mut lookups = lookups_of(alloc, parts, bounds)?;
    let mut given = Vec::new(alloc);
    let lists = gather(alloc, parts, lookups.as_mut_slice(), row, &mut given);
    drop(given);
    drop(lookups);
    lists
}

/// The witnesses of one row for all parts, part by part.
///
/// # Errors
///
/// `TooMany` exactly where there are more than `MOST_WITNESSES`; `NoMemory` where memory is refused.
pub fn gathered(
    alloc: Global,
    parts: &BoundParts<'_>,
    row: &Row,
) -> Result<Vec<Witness>, Fail<TooMany>>
    requires long { HasLengthOf parts.now.queries.now row.now }
    ensures names { IfOk result (λ lists. AreNamesIn parts.now.queries.now parts.now.db.now row.now (names_of lists.items)) }
    ensures few { IfOk result (λ lists. length lists.items ≤ MOST_WITNESSES) }
    ensures over { IfErr result (IsOver (HasTooManyIn parts.now.queries.now parts.now.db.now row.now)) }
{
    let bounds = bounds_of(alloc, parts)?;
    let lists = gather_once(alloc, parts, bounds.as_slice(), row);
    drop(bounds);
    lists
}
