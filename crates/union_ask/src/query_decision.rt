//! One row is decided by its formula, and what the solver answers is the evidence.
//! A model keeps a witness out of a repair, and a refutation says that none can be kept out.

ghost use Rattle.std.specs.Prelude.{◌≡◌, IfOk, IfErr, length};
ghost use Rattle.join_access.specs.Listing.{HasTooMany, IsOver};
ghost use Rattle.union_ask.specs.QueryDeciding.{IsDecided};

use cqa_value::{Fail, Row};
use join_access::TooMany;
use join_witness::witnesses;
use list_search::Decided;
use part_search::solved_by_groups;
use repair_clauses::encode;
use std::alloc::Global;
use table_blocks::Bound;

/// Decides whether every repair holds a witness of a row, by searches of at most `budget` conflicts each.
///
/// # Errors
///
/// `TooMany` exactly where the row has more than `MOST_WITNESSES` witnesses; `NoMemory` where memory is refused.
pub fn decide(
    alloc: Global,
    bound: &Bound<'_>,
    row: &Row,
    budget: u32,
) -> Result<Decided, Fail<TooMany>>
    requires { length row.now ≡ length bound.now.query.now.answer }
    ensures decided { IfOk result (λ decided. IsDecided bound.now.query.now bound.now.db.now row.now budget decided) }
    ensures within { IfOk result (λ decided. HasTooMany bound.now.query.now bound.now.db.now row.now → ⊥) }
    ensures over { IfErr result (IsOver (HasTooMany bound.now.query.now bound.now.db.now row.now)) }
{
    let found = witnesses(alloc, bound, row)?;
    let formula = encode(alloc, &found);
    drop(found);
    let decided = solved_by_groups(alloc, formula?, budget)?;
    Ok(decided)
}
