//! Pieces of the rows of a table, and the piece for a place.

ghost use Rattle.std.specs.Prelude.{◌≡◌, ℕ, IsTrue, ◌≤◌, ◌<◌, ◌+◌, ◌-◌, ◌++◌, ◌∷◌, ◌^◌, [], List, Some, IfSome, length, take, drop, slice_get};
ghost use Rattle.cqa_value.specs.declared.value.Value.{Value as Cell};
ghost use Rattle.row_pieces.specs.Joined.{joined, ArePlaced, IsPieceOf};

use crate::marked::MarkedRows;
use crate::near::{piece_about, piece_from};
use cqa_value::Row;

/// The most rows that a piece is left with where memory is had to cut it.
pub const MOST_IN_PIECE: usize = 256;

/// Some rows one after the other, with the place of the first of them.
pub struct Piece {
    pub start: usize,
    pub rows: MarkedRows,
}

impl Drop for Piece {
    fn drop(self) {
        let Piece { start: _, rows: _ } = self;
    }
}

/// Whether a piece begins at a place or before it, and no other piece behind it does.
fn has_place(pieces: &[Piece], at: usize, place: usize) -> bool
    ensures { IsTrue result → (from : ℕ) → ArePlaced from pieces.now → from ≤ place → place ≤ from + length (joined pieces.now) → IsPieceOf from pieces.now place at }
{
    if at >= pieces.len() || pieces[at].start > place {
        return false;
    }
    at + 1 == pieces.len() || place < pieces[at + 1].start
}

/// The last piece that begins at a place or before it, looked for from one on that may be near it.
pub fn piece_near(pieces: &[Piece], at: usize, place: usize) -> usize
    ensures { (from : ℕ) → ArePlaced from pieces.now → from ≤ place → place ≤ from + length (joined pieces.now) → 0 < length pieces.now → IsPieceOf from pieces.now place result }
{
    let guess = piece_from(pieces, at, place);
    if has_place(pieces, guess, place) {
        return guess;
    }
    pieces
        .partition_point(|piece| piece.start <= place)
        .saturating_sub(1)
}

/// The last piece that begins at a place or before it.
pub fn piece_of(pieces: &[Piece], place: usize) -> usize
    ensures { (from : ℕ) → ArePlaced from pieces.now → from ≤ place → place ≤ from + length (joined pieces.now) → 0 < length pieces.now → IsPieceOf from pieces.now place result }
{
    piece_near(pieces, piece_about(pieces, place), place)
}

/// The row at a place of a slice.
pub fn row_in<'a>(rows: &'a [Row], at: usize) -> &'a Row
    requires { at < length rows.now }
    ensures { slice_get rows.now at ≡ Some result.now }
{
    &rows[at]
}

/// The row at a place.
pub fn row_of<'a>(pieces: &'a [Piece], place: usize) -> &'a Row
    requires { (from : ℕ) × ArePlaced from pieces.now × (from ≤ place) × (place < from + length (joined pieces.now)) }
    ensures { (from : ℕ) → ArePlaced from pieces.now → from ≤ place → place < from + length (joined pieces.now) → slice_get (joined pieces.now) (place - from) ≡ Some result.now }
{
    let piece = &pieces[piece_of(pieces, place)];
    row_in(piece.rows.as_slice(), place - piece.start)
}

/// The last row of the last piece, if that has one.
pub fn last_of(pieces: &[Piece]) -> Option<&Row>
    ensures { IfSome result (λ row. (before : List (List Cell)) × (joined pieces.now ≡ before ++ row.now ∷ [])) }
{
    let piece = pieces.last()?;
    piece.rows.as_slice().last()
}

/// What stands from a place on in its piece, and the pieces behind that.
pub fn part_at<'a>(pieces: &'a [Piece], place: usize) -> (&'a [Row], &'a [Piece])
    requires { (from : ℕ) × ArePlaced from pieces.now × (from < place) × (place ≤ from + length (joined pieces.now)) }
    ensures { (from : ℕ) → ArePlaced from pieces.now → from < place → place ≤ from + length (joined pieces.now) → (drop (place - from) (joined pieces.now) ≡ result.0.now ++ joined result.1.now) × ArePlaced (place + length result.0.now) result.1.now }
{
    let at = piece_of(pieces, place);
    let piece = &pieces[at];
    let (_, front) = piece.rows.as_slice().split_at(place - piece.start);
    let (_, behind) = pieces.split_at(at + 1);
    (front, behind)
}

/// The number of rows of so many pieces that have their places.
fn end_of(pieces: &[Piece], count: usize) -> usize
    requires within { count ≤ length pieces.now }
    requires numbered { ArePlaced 0 (take count pieces.now) }
    requires fits { length (joined pieces.now) < 2 ^ 64 }
    ensures { result ≡ length (joined (take count pieces.now)) }
{
    if count == 0 {
        return 0;
    }
    let piece = &pieces[count - 1];
    piece.start + piece.rows.len()
}

/// Sets the start of each piece behind so many that have their places, and gives the number of all rows.
pub fn renumber(pieces: &mut [Piece], kept: usize) -> usize
    requires within { kept ≤ length pieces.old }
    requires kept { ArePlaced 0 (take kept pieces.old) }
    requires fits { length (joined pieces.old) < 2 ^ 64 }
    ensures count { result ≡ length (joined pieces.old) }
    ensures joined { joined pieces.new ≡ joined pieces.old }
    ensures numbered { ArePlaced 0 pieces.new }
{
    let mut start = end_of(pieces, kept);
    for at in kept..pieces.len() {
        let piece = &mut pieces[at];
        piece.start = start;
        start += piece.rows.len();
    }
    start
}
