//! For each row of a table, of the rows of an atom that witnesses with this row have, one whose value lies furthest one
//! way.

ghost use Rattle.std.specs.Prelude.{◌≡◌, ◌≢◌, ◌<◌, ℕ, Some, IfOk, length};
ghost use Rattle.cqa_model.specs.Query.{rows_of};
ghost use Rattle.cqa_model.specs.Database.{stored};
ghost use Rattle.join_access.specs.Listing.{names_of};
ghost use Rattle.row_witnesses.specs.Columns.{place_at};
ghost use Rattle.range_ask.specs.Ranges.{cell};
ghost use Rattle.range_ask.specs.Finding.{row_in_block};
ghost use Rattle.range_join.specs.Peaks.{best_at, further, lags, held_value, AreBest, GivesValue};

use cqa_value::{NOTHING, NoMemory, Row, compare};
use join_access::Witness;
use row_pieces::Rows;
use row_witnesses::{RowWitnesses, place_of};
use std::alloc::Global;

/// Which of several values is looked for.
#[derive(Clone, Copy)]
pub enum Extreme {
    Least,
    Greatest,
}

/// What is looked for: of the values that rows of an atom have in a column the furthest one way, for each row of the
/// lax atom, the one whose table needs not be strict.
#[derive(Clone, Copy)]
pub struct Look {
    pub way: Extreme,
    pub lax: u32,
    pub atom: u32,
    pub col: u32,
}

/// Whether a row's value in a column lies less far that way than another's. No row lies less far than each row.
pub fn lags(way: Extreme, col: u32, row: Option<&Row>, other: Option<&Row>) -> bool
    ensures { result ≡ lags way (held_value col row.entry) (held_value col other.entry) }
{
    let Some(next) = other else {
        return false;
    };
    let Some(row) = row else {
        return true;
    };
    let order = compare(row.at_or(col, &NOTHING), next.at_or(col, &NOTHING));
    match way {
        Extreme::Least => order.is_gt(),
        Extreme::Greatest => order.is_lt(),
    }
}

/// The one of two rows that lies further that way; the first where none does.
pub fn further<'a>(
    way: Extreme,
    col: u32,
    best: Option<&'a Row>,
    next: Option<&'a Row>,
) -> Option<&'a Row>
    ensures { held_value col result ≡ further way (held_value col best.entry) (held_value col next.entry) }
{
    if lags(way, col, best, next) {
        next
    } else {
        best
    }
}

/// One row more at a place.
fn add_row<'a>(way: Extreme, col: u32, bests: &mut Vec<Option<&'a Row>>, at: usize, row: &'a Row)
    requires { at < length bests.old.items }
    ensures size { length bests.new.items ≡ length bests.old.items }
    ensures here { best_at col bests.new.items at ≡ further way (best_at col bests.old.items at) (Some (cell row.now col)) }
    ensures others { (p : ℕ) → p ≢ at → best_at col bests.new.items p ≡ best_at col bests.old.items p }
{
    bests[at] = further(way, col, bests[at], Some(row));
}

/// A witness's row of an atom.
fn row_of<'a>(rows: &Rows<'a>, witness: &Witness, atom: u32) -> &'a Row
    requires atom { atom < length witness.now.rows }
    requires there { place_at witness.now.rows atom < length rows.now }
    ensures { result.now ≡ row_in_block rows.now (place_at witness.now.rows atom) }
{
    rows.get(place_of(witness, atom as usize) as usize)
}

/// For each row of the lax atom's table, in their order, of the rows that the witnesses with this row have of the atom
/// one whose value lies furthest, if there is any. One walk over the witnesses.
///
/// # Errors
///
/// `NoMemory` where memory is refused.
pub(crate) fn carriers<'a>(
    alloc: Global,
    found: &RowWitnesses<'a>,
    look: Look,
) -> Result<Vec<Option<&'a Row>>, NoMemory>
    requires lax { look.lax < length found.now.bound.now.query.now.atoms }
    requires atom { look.atom < length found.now.bound.now.query.now.atoms }
    ensures size { IfOk result (λ bests. length bests.items ≡ length (rows_of found.now.bound.now.query.now (stored found.now.bound.now.db.now) look.lax)) }
    ensures best { IfOk result (λ bests. AreBest look.way (GivesValue (rows_of found.now.bound.now.query.now (stored found.now.bound.now.db.now) look.atom) (names_of found.now.list) look.lax look.atom look.col) (length bests.items) (best_at look.col bests.items)) }
{
    let bound = found.bound;
    let rows = bound.rows_of(look.atom);
    let count = bound.rows_of(look.lax).len();
    let mut bests = vec![in alloc; None; count]?;
    for witness in found.list.as_slice() {
        let place = place_of(witness, look.lax as usize);
        let row = row_of(&rows, witness, look.atom);
        add_row(look.way, look.col, &mut bests, place as usize, row);
    }
    Ok(bests)
}
