//! Which row of all that meet the tests lies furthest one way, and a repair in which it is the only one that meets them.

ghost use Rattle.std.specs.Prelude.{◌≡◌, ◌+◌, ◌^◌, ◌<◌, ◌++◌, ◌∷◌, ℕ, Bool, Contains, List, [], IfOk, IfSome, length};
ghost use Rattle.std.specs.Option.{option_copied};
ghost use Rattle.cqa_value.specs.declared.value.Value.{Value as Cell};
ghost use Rattle.range_ask.specs.Finding.{IsFurthest};
ghost use Rattle.range_ask.specs.Walking.{AreChosenSoFar, IsNextBlock};
ghost use Rattle.range_ask.specs.Reaching.{top_row, with_top, IsTop};

use crate::found::Spot;
use crate::reach::Reach;
use crate::way::{Way, is_further};
use cqa_value::{NoMemory, Row};
use std::alloc::Global;

/// A row that meets the tests, the number of its block, and its place in the table.
#[derive(Clone, Copy)]
pub struct Top<'a> {
    pub number: usize,
    pub place: u32,
    pub row: &'a Row,
}

/// The one that lies further: the row so far, or one of a block of a number that begins at a place.
pub(crate) fn further_top<'a>(
    way: Way,
    col: u32,
    top: Option<Top<'a>>,
    number: usize,
    start: u32,
    next: Option<Spot<'a>>,
) -> Option<Top<'a>>
    requires { IfSome next (λ spot. start + spot.at < 2 ^ 31) }
    ensures { (p : List Cell → Bool) (rows : List (List Cell)) (front : List (List (List Cell))) (block : List (List Cell)) (later : List (List (List Cell))) (places new : List ℕ) (at : ℕ) → IsNextBlock rows front block later start → IsFurthest way p col block (length block) next.entry → AreChosenSoFar (λ b x. Contains b x) rows front places → number ≡ length places → at < length block → new ≡ places ++ (start + at) ∷ [] → IsTop way p col rows front places top.entry → IsTop way p col rows (front ++ block ∷ []) new result }
{
    let Some(spot) = next else {
        return top;
    };
    let fresh = Top {
        number,
        place: start + spot.at,
        row: spot.row,
    };
    let Some(old) = top else {
        return Some(fresh);
    };
    if is_further(way, col, fresh.row, old.row) {
        Some(fresh)
    } else {
        Some(old)
    }
}

/// The same rows, but that one in its block.
///
/// # Errors
///
/// `NoMemory` where memory is refused.
pub(crate) fn with_top<'a>(
    alloc: Global,
    reach: &Reach<'a>,
    top: Option<Top<'a>>,
) -> Result<Reach<'a>, NoMemory>
    requires { IfSome top (λ t. t.number < length reach.now.places.items) }
    ensures places { IfOk result (λ new. new.places.items ≡ with_top reach.now.places.items top.entry) }
    ensures extreme { IfOk result (λ new. option_copied new.extreme ≡ top_row top.entry) }
{
    let mut places = Vec::from_slice(alloc, reach.places.as_slice())?;
    let Some(top) = top else {
        return Ok(Reach {
            places,
            extreme: None,
        });
    };
    places[top.number] = top.place;
    Ok(Reach {
        places,
        extreme: Some(top.row),
    })
}
