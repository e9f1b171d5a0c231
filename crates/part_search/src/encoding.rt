//! The formula of a row for the parts of a union over a frame: that of the lists of its witnesses for all parts.

ghost use Rattle.std.specs.Prelude.{◌≡◌, IfErr, IfOk, length};
ghost use Rattle.join_access.specs.Listing.{IsOver, names_of};
ghost use Rattle.part_search.specs.Encodings.{IsEncodedOver};
ghost use Rattle.part_search.specs.Lookups.{HasLengthOf};
ghost use Rattle.part_search.specs.Parts.{AreNamesIn, HasTooManyIn, IsFrameFor};

use crate::bound_parts::BoundParts;
use crate::gathering::gathered;
use cqa_value::{Fail, NoMemory, Row};
use join_witness::{TooMany, Witness};
use row_lists::{Encoded, Frame, RowLists, encode};
use std::alloc::Global;
use table_blocks::Database;

/// The lists of a row's witnesses over a frame for the parts.
///
/// # Errors
///
/// `NoMemory` where memory is refused.
pub(crate) fn lists_over<'c, 'a: 'c, 'b: 'a>(
    alloc: Global,
    parts: &BoundParts<'b>,
    frame: &'a Frame,
    lists: &'c [Witness],
    _row: &Row,
) -> Result<RowLists<'c>, NoMemory>
    requires wide { length frame.now.slots ≡ length parts.now.db.now }
    requires frame { IsFrameFor parts.now.db.now parts.now.queries.now frame.now.tables }
    requires names { AreNamesIn parts.now.queries.now parts.now.db.now _row.now (names_of lists.now) }
    ensures { IfOk result (λ found. (found.db.now ≡ parts.now.db.now) × (found.frame.now ≡ frame.now) × (found.lists.now ≡ lists.now)) }
{
    let db: &'c Database = parts.db;
    let frame: &'c Frame = frame;
    RowLists::new(alloc, db, frame, lists)
}

/// The formula of the row whose witnesses these are.
fn encode_lists<'c, 'a: 'c, 'b: 'a>(
    alloc: Global,
    parts: &BoundParts<'b>,
    frame: &'a Frame,
    lists: &'c [Witness],
    row: &Row,
) -> Result<Encoded, NoMemory>
    requires wide { length frame.now.slots ≡ length parts.now.db.now }
    requires frame { IsFrameFor parts.now.db.now parts.now.queries.now frame.now.tables }
    requires names { AreNamesIn parts.now.queries.now parts.now.db.now row.now (names_of lists.now) }
    ensures { IfOk result (IsEncodedOver parts.now.db.now frame.now.tables parts.now.queries.now row.now) }
{
    let lists = lists_over(alloc, parts, frame, lists, row)?;
    let encoded = encode(alloc, &lists);
    drop(lists);
    encoded
}

/// The formula of a row for the parts of a union, with its variables numbered from 1 by the tables of a frame and then in block
/// order.
///
/// # Errors
///
/// `TooMany` exactly where the row has more than `MOST_WITNESSES` witnesses for all parts together; `NoMemory` where memory is
/// refused.
pub fn encode_parts(
    alloc: Global,
    parts: &BoundParts<'_>,
    frame: &Frame,
    row: &Row,
) -> Result<Encoded, Fail<TooMany>>
    requires wide { length frame.now.slots ≡ length parts.now.db.now }
    requires frame { IsFrameFor parts.now.db.now parts.now.queries.now frame.now.tables }
    requires long { HasLengthOf parts.now.queries.now row.now }
    ensures encoded { IfOk result (IsEncodedOver parts.now.db.now frame.now.tables parts.now.queries.now row.now) }
    ensures within { IfOk result (λ encoded. HasTooManyIn parts.now.queries.now parts.now.db.now row.now → ⊥) }
    ensures over { IfErr result (IsOver (HasTooManyIn parts.now.queries.now parts.now.db.now row.now)) }
{
    let lists = gathered(alloc, parts, row)?;
    let encoded = encode_lists(alloc, parts, frame, lists.as_slice(), row);
    drop(lists);
    Ok(encoded?)
}
