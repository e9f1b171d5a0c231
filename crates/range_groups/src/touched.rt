//! The rows of a table that the witnesses of a group have, each with the row that gives its value.

ghost use Rattle.std.specs.Prelude.{◌≡◌, Contains, IfOk, Some};
ghost use Rattle.range_ask.specs.Ranges.{cell};
ghost use Rattle.range_join.specs.Peaks.{further, held_value, IsPeak};
ghost use Rattle.range_join.specs.Worths.{atom_row, IsNameAt};
ghost use Rattle.range_groups.specs.declared.members.Member.{Member as OneMember};
ghost use Rattle.range_groups.specs.Members.{names_by, AreByPlaces};
ghost use Rattle.range_groups.specs.Touched.{AreFurthestCarriers, IsCarried};

use crate::members::Member;
use cqa_value::{NoMemory, Row};
use range_join::{Extreme, Look, further, lags, row_of};
use table_blocks::Database;

/// A row of the lax atom's table that witnesses of a group have: its place, and of the rows that these witnesses have
/// of the sought atom one whose value lies furthest one way.
#[derive(Clone, Copy)]
pub(crate) struct Carrier<'a> {
    pub place: u32,
    pub row: &'a Row,
}

/// The carrier of a member: its place, and its row of an atom.
fn carrier_of<'a>(db: &'a Database, atom: u32, member: &Member<'a>) -> Carrier<'a>
    requires { IsNameAt db.now atom (names_by member.now) }
    ensures place { result.place ≡ member.now.place }
    ensures row { result.row.now ≡ atom_row db.now atom (names_by member.now) }
{
    Carrier {
        place: member.place,
        row: row_of(db, member.witness, atom),
    }
}

/// Of two carriers of one place the one whose value lies further that way; the first where none does.
fn further_carrier<'a>(way: Extreme, col: u32, held: Carrier<'a>, next: Carrier<'a>) -> Carrier<'a>
    requires { held.place ≡ next.place }
    ensures place { result.place ≡ held.entry.place }
    ensures value { Some (cell result.row.now col) ≡ further way (Some (cell held.entry.row.now col)) (Some (cell next.entry.row.now col)) }
{
    if lags(way, col, Some(held.row), Some(next.row)) {
        next
    } else {
        held
    }
}

/// For each row of the lax atom's table that members have a carrier with one of their rows of the sought atom whose
/// value lies furthest, in place of what the list held.
///
/// # Errors
///
/// `NoMemory` where memory is refused.
pub(crate) fn find_carriers<'a>(
    db: &'a Database,
    look: Look,
    members: &[Member<'a>],
    carriers: &mut Vec<Carrier<'a>>,
) -> Result<(), NoMemory>
    requires named { (m : OneMember) → Contains members.now m → IsNameAt db.now look.atom (names_by m) }
    requires by_places { AreByPlaces members.now }
    ensures { IfOk result (λ done. AreFurthestCarriers look.way db.now look.atom look.col members.now carriers.new.items) }
{
    carriers.clear();
    let Some((first, others)) = members.split_first() else {
        return Ok(());
    };
    let mut held = carrier_of(db, look.atom, first);
    for member in others {
        let next = carrier_of(db, look.atom, member);
        if next.place == held.place {
            held = further_carrier(look.way, look.col, held, next);
        } else {
            carriers.push(held)?;
            held = next;
        }
    }
    carriers.push(held)?;
    Ok(())
}

/// Of the rows that are carried one whose value lies furthest that way; none where there are none.
pub(crate) fn furthest_of<'a>(way: Extreme, col: u32, carriers: &[Carrier<'a>]) -> Option<&'a Row>
    ensures { IsPeak way (IsCarried col carriers.now) (held_value col result) }
{
    let mut best = None;
    for carrier in carriers {
        best = further(way, col, best, Some(carrier.row));
    }
    best
}
