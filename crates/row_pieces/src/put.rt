//! Rows that are put among those of pieces.

ghost use Rattle.std.specs.Prelude.{◌≡◌, ◌≤◌, ◌<◌, ◌+◌, ◌++◌, ◌^◌, List, IfOk, OnOk, OnErr, length, take, drop, slice_index_or};
ghost use Rattle.cqa_value.specs.declared.value.Value.{Value as Cell};
ghost use Rattle.row_pieces.specs.declared.piece.Piece.{Piece as PieceOfRows};
ghost use Rattle.row_pieces.specs.Inserted.{with_item, with_items, AreRising};
ghost use Rattle.row_pieces.specs.Joined.{joined, ArePlaced, HasPlacesTo};

use crate::add::add_behind;
use crate::marked::MarkedRows;
use crate::piece::{MOST_IN_PIECE, Piece, piece_near};
use cqa_value::{NoMemory, Row};

/// Cuts a piece in two where memory is had for that, and gives the number of pieces up to its end.
fn cut(pieces: &mut Vec<Piece>, at: usize, middle: usize) -> usize
    requires there { at < length pieces.old.items }
    requires within { (none : PieceOfRows) → middle ≤ length (slice_index_or pieces.old.items at none).rows }
    requires numbered { ArePlaced 0 (take (at + 1) pieces.old.items) }
    requires fits { length (joined pieces.old.items) < 2 ^ 64 }
    ensures some { 0 < result }
    ensures within { result ≤ length pieces.new.items }
    ensures joined { joined pieces.new.items ≡ joined pieces.old.items }
    ensures front { joined (take result pieces.new.items) ≡ joined (take (at + 1) pieces.old.items) }
    ensures numbered { ArePlaced 0 (take result pieces.new.items) }
{
    if pieces.reserve(1).is_err() {
        return at + 1;
    }
    let piece = &mut pieces[at];
    let start = piece.start + middle;
    match piece.rows.split_off(middle) {
        Ok(rows) => {
            drop(pieces.insert(at + 1, Piece { start, rows }));
            at + 2
        }
        Err(_) => at + 1,
    }
}

/// Cuts the piece for a place among the first pieces in halves where it is full, and gives the number of pieces up to its end.
fn make_room(pieces: &mut Vec<Piece>, end: usize, place: usize) -> usize
    requires opened { HasPlacesTo pieces.old.items end place }
    requires fits { length (joined pieces.old.items) < 2 ^ 64 }
    ensures opened { HasPlacesTo pieces.new.items result place }
    ensures joined { joined pieces.new.items ≡ joined pieces.old.items }
{
    let (front, _) = pieces.as_slice().split_at(end);
    let at = piece_near(front, end - 1, place);
    let len = pieces[at].rows.len();
    if len < MOST_IN_PIECE {
        return at + 1;
    }
    cut(pieces, at, len / 2)
}

/// Puts a row in before the one at a place among the first pieces, and gives the number of pieces up to there.
fn put_in(pieces: &mut Vec<Piece>, end: usize, place: usize, row: Row) -> Result<usize, NoMemory>
    requires opened { HasPlacesTo pieces.old.items end place }
    ensures opened { IfOk result (λ next. HasPlacesTo pieces.new.items next place) }
    ensures put { OnOk result (joined pieces.new.items ≡ with_item place row (joined pieces.old.items)) }
    ensures err { OnErr result (joined pieces.new.items ≡ joined pieces.old.items) }
{
    let (front, _) = pieces.as_slice().split_at(end);
    let at = piece_near(front, end - 1, place);
    let piece = &mut pieces[at];
    piece.rows.insert(place - piece.start, row)?;
    Ok(at + 1)
}

/// Takes the row at a place out.
fn take_out(pieces: &mut [Piece], place: usize)
    ensures { place < length (joined pieces.old) → joined pieces.new ≡ take place (joined pieces.old) ++ drop (place + 1) (joined pieces.old) }
{
    let mut left = place;
    for at in 0..pieces.len() {
        let piece = &mut pieces[at];
        let len = piece.rows.len();
        if left < len {
            piece.rows.remove(left);
            return;
        }
        left -= len;
    }
}

/// Takes rows out again that were put in.
fn take_back(pieces: &mut [Piece], places: &[usize])
    ensures { (rows items : List (List Cell)) → joined pieces.old ≡ with_items items rows places.now → length rows ≡ length places.now → AreRising 0 (length items) places.now → joined pieces.new ≡ items }
{
    for place in places {
        take_out(pieces, *place);
    }
}

/// Puts rows in, each before the one that stands at its place, from the last on, and gives the number of pieces that have
/// their places still.
///
/// # Errors
///
/// `NoMemory` where memory is refused; those that were put in are taken out again then.
fn put_each(
    pieces: &mut Vec<Piece>,
    rows: &mut Vec<Row>,
    places: &[usize],
) -> Result<usize, NoMemory>
    requires each { length places.now ≡ length rows.old.items }
    requires rising { AreRising 0 (length (joined pieces.old.items)) places.now }
    requires some { 0 < length pieces.old.items }
    requires numbered { ArePlaced 0 pieces.old.items }
    requires fits { length (joined pieces.old.items) + length rows.old.items < 2 ^ 64 }
    ensures ok { OnOk result (joined pieces.new.items ≡ with_items (joined pieces.old.items) rows.old.items places.now) }
    ensures kept { IfOk result (λ kept. (kept ≤ length pieces.new.items) × ArePlaced 0 (take kept pieces.new.items)) }
    ensures err { OnErr result (joined pieces.new.items ≡ joined pieces.old.items) }
{
    let mut end = pieces.len();
    while let Some(row) = rows.pop() {
        let at = rows.len();
        let room = make_room(pieces, end, places[at]);
        match put_in(pieces, room, places[at], row) {
            Ok(next) => end = next,
            Err(refused) => {
                let (_, put) = places.split_at(at + 1);
                take_back(pieces.as_mut_slice(), put);
                return Err(refused);
            }
        }
    }
    Ok(end)
}

/// Puts rows in among so many, each before the one that stands at its place, and gives the number of pieces that have their
/// places still.
///
/// # Errors
///
/// `NoMemory` where memory is refused; the pieces hold the same rows as before then.
pub fn put(
    pieces: &mut Vec<Piece>,
    count: usize,
    rows: &mut Vec<Row>,
    places: &[usize],
) -> Result<usize, NoMemory>
    requires count { count ≡ length (joined pieces.old.items) }
    requires numbered { ArePlaced 0 pieces.old.items }
    requires each { length places.now ≡ length rows.old.items }
    requires rising { AreRising 0 (length (joined pieces.old.items)) places.now }
    ensures ok { OnOk result (joined pieces.new.items ≡ with_items (joined pieces.old.items) rows.old.items places.now) }
    ensures kept { IfOk result (λ kept. (kept ≤ length pieces.new.items) × ArePlaced 0 (take kept pieces.new.items)) }
    ensures err { OnErr result (joined pieces.new.items ≡ joined pieces.old.items) }
    ensures fits { length (joined pieces.new.items) < 2 ^ 64 }
{
    if count.checked_add(rows.len()).is_none() {
        return Err(NoMemory);
    }
    if !places.is_empty() && places[0] == count {
        let kept = pieces.len();
        add_behind(pieces, rows)?;
        return Ok(kept);
    }
    if pieces.is_empty() {
        let rows = MarkedRows::new(*rows.allocator());
        pieces.push(Piece { start: 0, rows })?;
    }
    put_each(pieces, rows, places)
}
