//! By what the witnesses of rows are looked up, for each part of a union. It is made once for many rows.

ghost use Rattle.std.specs.Prelude.{◌≡◌, [], IfOk, OnOk};
ghost use Rattle.part_search.specs.Lookups.{AreBoundsOf, AreLookupsOf};

use crate::bound_parts::BoundParts;
use cqa_value::NoMemory;
use join_witness::{Lookup, lookup_of};
use std::alloc::Global;
use table_blocks::Bound;

/// Each part over the database.
///
/// # Errors
///
/// `NoMemory` where memory is refused.
pub fn bounds_of<'a>(alloc: Global, parts: &BoundParts<'a>) -> Result<Vec<Bound<'a>>, NoMemory>
    ensures { IfOk result (λ bounds. AreBoundsOf parts.now.db.now parts.now.queries.now bounds.items) }
{
    let mut bounds = Vec::with_capacity(alloc, parts.queries.len())?;
    for query in parts.queries {
        bounds.push(Bound::new(parts.db, query))?;
    }
    Ok(bounds)
}

/// Adds a lookup for each part.
fn add_lookups<'a>(
    alloc: Global,
    parts: &BoundParts<'_>,
    bounds: &'a [Bound<'a>],
    lookups: &mut Vec<Lookup<'a>>,
) -> Result<(), NoMemory>
    requires bounds { AreBoundsOf parts.now.db.now parts.now.queries.now bounds.now }
    requires none { lookups.old.items ≡ [] }
    ensures { OnOk result (AreLookupsOf parts.now.db.now parts.now.queries.now lookups.new.items) }
{
    for at in 0..parts.queries.len() {
        lookups.push(lookup_of(alloc, &bounds[at])?)?;
    }
    Ok(())
}

/// What the witnesses of rows are looked up by, for each part.
///
/// # Errors
///
/// `NoMemory` where memory is refused.
pub fn lookups_of<'a>(
    alloc: Global,
    parts: &BoundParts<'_>,
    bounds: &'a [Bound<'a>],
) -> Result<Vec<Lookup<'a>>, NoMemory>
    requires { AreBoundsOf parts.now.db.now parts.now.queries.now bounds.now }
    ensures { IfOk result (λ lookups. AreLookupsOf parts.now.db.now parts.now.queries.now lookups.items) }
{
    let mut lookups = Vec::new(alloc);
    match add_lookups(alloc, parts, bounds, &mut lookups) {
        Ok(()) => Ok(lookups),
        Err(fault) => {
            drop(lookups);
            Err(fault)
        }
    }
}
