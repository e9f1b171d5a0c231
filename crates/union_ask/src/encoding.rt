//! The formula of a row for a union: that of the lists of its witnesses for all parts, over the union's tables.

ghost use Rattle.std.specs.Prelude.{IfErr, IfOk};
ghost use Rattle.join_access.specs.Listing.{IsOver};
ghost use Rattle.part_search.specs.Lookups.{HasLengthOf};
ghost use Rattle.part_search.specs.Parts.{HasTooManyIn};
ghost use Rattle.union_ask.specs.Encodings.{IsEncodedIn};

use crate::frame::union_frame;
use cqa_value::{Fail, Row};
use join_witness::TooMany;
use part_search::{BoundParts, encode_parts};
use row_lists::Encoded;
use std::alloc::Global;

/// The formula of a row for a union, with its variables numbered from 1 by tables in the order of their creation and then in
/// block order: a clause for each block that has a row in a witness, and one for each witness, part by part (as Dixit and
/// Kolaitis, SAT 2019, for one query).
///
/// # Errors
///
/// `TooMany` exactly where the row has more than `MOST_WITNESSES` witnesses for all parts together; `NoMemory` where memory is
/// refused.
pub fn union_encode(
    alloc: Global,
    parts: &BoundParts<'_>,
    row: &Row,
) -> Result<Encoded, Fail<TooMany>>
    requires long { HasLengthOf parts.now.queries.now row.now }
    ensures encoded { IfOk result (IsEncodedIn parts.now.db.now parts.now.queries.now row.now) }
    ensures within { IfOk result (λ encoded. HasTooManyIn parts.now.queries.now parts.now.db.now row.now → ⊥) }
    ensures over { IfErr result (IsOver (HasTooManyIn parts.now.queries.now parts.now.db.now row.now)) }
{
    let frame = union_frame(alloc, parts)?;
    let encoded = encode_parts(alloc, parts, &frame, row);
    drop(frame);
    encoded
}
