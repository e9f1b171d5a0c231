//! What the rows of a group add up to, block by block.

ghost use Rattle.std.specs.Prelude.{◌≡◌, ◌<◌, suc, ℤ, ℕ, Bool, true, false, List, length, pos};
ghost use Rattle.cqa_value.specs.declared.value.Value.{Value as Cell};
ghost use Rattle.range_ask.specs.Finding.{row_in_block};
ghost use Rattle.range_ask.specs.Tallying.{AreAdding, AtLeastℤ, AtMostℤ, IsEither, IsSureOf};

/// A block whose rows are added: its number, from 1 on, and whether all its rows are of one group.
#[derive(Clone, Copy)]
pub struct Turn {
    pub number: u32,
    pub sure: bool,
}

/// What the rows of a group add up to at least and at most, in two parts: over the blocks before the last one that has such rows,
/// and in this one, whose number it is.
#[derive(Clone, Copy)]
pub struct Total {
    pub number: u32,
    pub low: i128,
    pub high: i128,
    pub least: i64,
    pub most: i64,
}

/// The lesser of two numbers.
fn lesser(a: i64, b: i64) -> i64
    ensures { IsEither AtMostℤ a b result }
{
    if b < a { b } else { a }
}

/// The greater of two numbers.
fn greater(a: i64, b: i64) -> i64
    ensures { IsEither AtLeastℤ a b result }
{
    if a < b { b } else { a }
}

/// What stands beside the worth of the first row of a group in a block: a row that isn't of the group is worth 0.
fn beside(turn: Turn, worth: i64) -> i64
    ensures sure { turn.sure ≡ true → result ≡ worth }
    ensures loose { turn.sure ≡ false → result ≡ pos 0 }
{
    if turn.sure { worth } else { 0 }
}

/// One row more of a group, which adds so much.
pub(crate) fn more_total(turn: Turn, worth: i64, total: Total) -> Total
    ensures { (f : List Cell → ℤ) (p : List Cell → Bool) (front : List (List (List Cell))) (block : List (List Cell)) (n : ℕ) → ((x : List Cell) → p x ≡ false → f x ≡ pos 0) → turn.number ≡ suc (length front) → IsSureOf turn.sure p block → n < length block → p (row_in_block block n) ≡ true → f (row_in_block block n) ≡ worth → AreAdding f p turn.sure front block n total → AreAdding f p turn.sure front block (suc n) result }
{
    if total.number == turn.number {
        return Total {
            number: total.number,
            low: total.low,
            high: total.high,
            least: lesser(total.least, worth),
            most: greater(total.most, worth),
        };
    }
    let other = beside(turn, worth);
    Total {
        number: turn.number,
        low: total.low.saturating_add(total.least as i128),
        high: total.high.saturating_add(total.most as i128),
        least: lesser(other, worth),
        most: greater(other, worth),
    }
}
