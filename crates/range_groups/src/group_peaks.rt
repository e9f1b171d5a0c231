//! Both ends of a least or a greatest value over the witnesses of one group.

ghost use Rattle.std.specs.Prelude.{◌≡◌, ◌≤◌, ℕ, List, IfOk, length};
ghost use Rattle.cqa_value.specs.declared.value.Value.{Value as Cell};
ghost use Rattle.cqa_model.specs.declared.limits.TheConstants.{MOST_ROWS};
ghost use Rattle.cqa_model.specs.Database.{Table};
ghost use Rattle.range_join.specs.Extremes.{sought_by};
ghost use Rattle.range_join.specs.Peaks.{held_value, value_end};
ghost use Rattle.range_groups.specs.Asked.{AreEndsOf, AreGroupsAsked, AreMembersOf};
ghost use Rattle.range_groups.specs.Members.{AreByPlaces};
ghost use Rattle.range_groups.specs.Spans.{AreSpansOfPlaces};
ghost use Rattle.range_groups.specs.Touched.{carried_at, AreCarriers, AreEndValues};

use crate::ask::GroupAsk;
use crate::members::Member;
use crate::surest::surest_of;
use crate::touched::{Carrier, find_carriers, furthest_of};
use aggregate_range::End;
use cqa_value::{NoMemory, Row};
use range_ask::end_of;
use range_join::{Extreme, Look, Span};
use std::alloc::Global;

/// Both ends of a group's values, by rows that have them; none where there is no value.
#[derive(Clone, Copy)]
struct PeakRows<'a> {
    pub least: Option<&'a Row>,
    pub greatest: Option<&'a Row>,
}

/// Both ends of a greatest value: what blocks give whichever of their rows is kept, and the greatest of all.
fn greatest_rows<'a>(col: u32, carriers: &[Carrier<'a>], spans: &[Span]) -> PeakRows<'a>
    requires carriers { AreCarriers (length spans.now) carriers.now }
    requires few { length spans.now ≤ MOST_ROWS }
    ensures { (db : List Table) (table : ℕ) → AreSpansOfPlaces db table spans.now → AreEndValues Extreme.Greatest (carried_at col carriers.now) (length spans.now) db table (held_value col result.least) (held_value col result.greatest) }
{
    PeakRows {
        least: surest_of(Extreme::Greatest, col, carriers, spans),
        greatest: furthest_of(Extreme::Greatest, col, carriers),
    }
}

/// Both ends of a least value. Where no block is sure to give one there may be none, and it is greatest where the
/// greatest of all is the only one.
fn least_rows<'a>(col: u32, carriers: &[Carrier<'a>], spans: &[Span]) -> PeakRows<'a>
    requires carriers { AreCarriers (length spans.now) carriers.now }
    requires few { length spans.now ≤ MOST_ROWS }
    ensures { (db : List Table) (table : ℕ) → AreSpansOfPlaces db table spans.now → AreEndValues Extreme.Least (carried_at col carriers.now) (length spans.now) db table (held_value col result.least) (held_value col result.greatest) }
{
    match surest_of(Extreme::Least, col, carriers, spans) {
        Some(row) => PeakRows {
            least: furthest_of(Extreme::Least, col, carriers),
            greatest: Some(row),
        },
        None => PeakRows {
            least: None,
            greatest: furthest_of(Extreme::Greatest, col, carriers),
        },
    }
}

/// Both ends of the least or the greatest value that the witnesses of a group give, whichever row is kept of each block
/// of the lax atom's table. The carriers are that table's rows which these witnesses have, and for each row of that
/// table the spans have the places of its block.
fn peak_rows<'a>(way: Extreme, col: u32, carriers: &[Carrier<'a>], spans: &[Span]) -> PeakRows<'a>
    requires carriers { AreCarriers (length spans.now) carriers.now }
    requires few { length spans.now ≤ MOST_ROWS }
    ensures { (db : List Table) (table : ℕ) → AreSpansOfPlaces db table spans.now → AreEndValues way (carried_at col carriers.now) (length spans.now) db table (held_value col result.least) (held_value col result.greatest) }
{
    match way {
        Extreme::Least => least_rows(col, carriers, spans),
        Extreme::Greatest => greatest_rows(col, carriers, spans),
    }
}

/// The values of both rows as ends.
fn both_ends(alloc: Global, col: u32, rows: PeakRows<'_>) -> Result<(End, End), NoMemory>
    ensures least { IfOk result (λ ends. ends.0 ≡ value_end (held_value col rows.entry.least)) }
    ensures greatest { IfOk result (λ ends. ends.1 ≡ value_end (held_value col rows.entry.greatest)) }
{
    let least = end_of(alloc, col, rows.least)?;
    match end_of(alloc, col, rows.greatest) {
        Ok(greatest) => Ok((least, greatest)),
        Err(fault) => {
            drop(least);
            Err(fault)
        }
    }
}

/// Both ends of the least or the greatest value over the members of a group. The list of carriers is used for them.
///
/// # Errors
///
/// `NoMemory` where memory is refused.
pub(crate) fn peak_ends<'a>(
    alloc: Global,
    ask: &GroupAsk<'a>,
    look: Look,
    members: &[Member<'a>],
    carriers: &mut Vec<Carrier<'a>>,
) -> Result<(End, End), NoMemory>
    requires asked { AreGroupsAsked ask.now }
    requires look { sought_by look ≡ ask.now.sought.now }
    requires of { AreMembersOf ask.now members.now }
    requires by_places { AreByPlaces members.now }
    ensures { IfOk result (λ ends. (value : Cell) → AreEndsOf ask.now value members.now ends) }
{
    find_carriers(ask.found.bound.db, look, members, carriers)?;
    let rows = peak_rows(look.way, look.col, carriers, ask.spans);
    both_ends(alloc, look.col, rows)
}
