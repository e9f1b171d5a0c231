//! Rows that are kept, one of each block, and which of those that meet the tests has an extreme value.

ghost use Rattle.std.specs.Prelude.{◌≡◌, ◌+◌, ◌^◌, ◌<◌, ◌++◌, ◌∷◌, Bool, List, [], IfOk};
ghost use Rattle.std.specs.List.{filter};
ghost use Rattle.std.specs.Option.{option_copied};
ghost use Rattle.cqa_value.specs.declared.value.Value.{Value as Cell};
ghost use Rattle.range_ask.specs.Picks.{IsExtreme};
ghost use Rattle.range_ask.specs.Finding.{avoided_place, avoided_row, spot_place, spot_row};
ghost use Rattle.range_ask.specs.Reaching.{IsIfMet};

use crate::found::{Met, Spot};
use crate::way::{Way, is_further};
use cqa_value::{NoMemory, Row};

/// The places of the rows, and the row that meets the tests whose value lies furthest one way.
#[derive(Drop)]
pub struct Reach<'a> {
    pub places: Vec<u32>,
    pub extreme: Option<&'a Row>,
}

/// The row that is taken of a block: its place in the block, and itself if it meets the tests.
#[derive(Clone, Copy)]
pub struct Taken<'a> {
    pub at: u32,
    pub row: Option<&'a Row>,
}

/// A row that meets the tests, or the first of the block.
fn met_or_first<'a>(spot: Option<Spot<'a>>) -> Taken<'a>
    ensures at { result.at ≡ spot_place spot.entry }
    ensures row { option_copied result.row ≡ spot_row spot.entry }
{
    match spot {
        Some(spot) => Taken {
            at: spot.at,
            row: Some(spot.row),
        },
        None => Taken { at: 0, row: None },
    }
}

/// A row that doesn't meet the tests, or else the one whose value lies least far.
pub(crate) fn avoiding<'a>(met: &Met<'a>) -> Taken<'a>
    ensures at { result.at ≡ avoided_place met.now.missing met.now.near }
    ensures row { option_copied result.row ≡ avoided_row met.now.missing met.now.near }
{
    match met.missing {
        Some(at) => Taken { at, row: None },
        None => met_or_first(met.near),
    }
}

/// The row that meets the tests whose value lies furthest, or else the first of the block.
pub(crate) fn meeting<'a>(met: &Met<'a>) -> Taken<'a>
    ensures at { result.at ≡ spot_place met.now.far }
    ensures row { option_copied result.row ≡ spot_row met.now.far }
{
    met_or_first(met.far)
}

/// The row whose value lies further, if there is one; the best where neither's does.
pub(crate) fn further_row<'a>(
    way: Way,
    col: u32,
    best: Option<&'a Row>,
    next: Option<&'a Row>,
) -> Option<&'a Row>
    ensures { (p : List Cell → Bool) (xs : List (List Cell)) (x : List Cell) → IsExtreme way col (filter p xs) (option_copied best.entry) → IsIfMet p x (option_copied next.entry) → IsExtreme way col (filter p (xs ++ x ∷ [])) (option_copied result) }
{
    let Some(row) = next else {
        return best;
    };
    let Some(other) = best else {
        return next;
    };
    if is_further(way, col, row, other) {
        next
    } else {
        best
    }
}

/// One row more, of a block that begins at a place.
pub(crate) fn keep<'a>(
    way: Way,
    col: u32,
    reach: &mut Reach<'a>,
    start: u32,
    taken: Taken<'a>,
) -> Result<(), NoMemory>
    requires { start + taken.at < 2 ^ 31 }
    ensures places { IfOk result (λ done. reach.new.places.items ≡ reach.old.places.items ++ (start + taken.entry.at) ∷ []) }
    ensures extreme { IfOk result (λ done. (p : List Cell → Bool) (xs : List (List Cell)) (x : List Cell) → IsExtreme way col (filter p xs) (option_copied reach.old.extreme) → IsIfMet p x (option_copied taken.entry.row) → IsExtreme way col (filter p (xs ++ x ∷ [])) (option_copied reach.new.extreme)) }
{
    reach.places.push(start + taken.at)?;
    reach.extreme = further_row(way, col, reach.extreme, taken.row);
    Ok(())
}
