//! Rows that are taken out of pieces, or exchanged.

ghost use Rattle.std.specs.Prelude.{◌≡◌, ◌≤◌, ◌<◌, ◌-◌, ◌^◌, ◌++◌, Bool, List, OnOk, length, map, take, drop};
ghost use Rattle.std.specs.Fn.{ComputesKey};
ghost use Rattle.cqa_value.specs.declared.value.Value.{Value as Cell};
ghost use Rattle.row_pieces.specs.Joined.{joined, ArePlaced};
ghost use Rattle.row_pieces.specs.Retained.{retained};

use crate::marked::MarkedRows;
use crate::piece::{Piece, piece_of, renumber};
use cqa_value::{NoMemory, Row};

/// Moves the rows of all pieces behind others, one piece after the other.
///
/// # Errors
///
/// `NoMemory` where memory is refused.
pub fn give_each(pieces: &mut [Piece], rows: &mut Vec<Row>) -> Result<(), NoMemory>
    ensures { OnOk result (rows.new.items ≡ rows.old.items ++ joined pieces.old) }
{
    for at in 0..pieces.len() {
        let piece = &mut pieces[at];
        piece.rows.give(rows)?;
    }
    Ok(())
}

/// Takes the rows of a stretch away that don't pass a test, as far as it goes over these, and gives the test.
fn retain_some<P: FnMut(&Row) -> bool>(rows: &mut MarkedRows, from: usize, to: usize, stays: P) -> P
    requires callable { P.IsAlwaysCallable stays }
    requires order { from ≤ to }
    ensures callable { P.IsAlwaysCallable result }
    ensures kept { (p : List Cell → Bool) (behind : List (List Cell)) → ComputesKey P.FnMut p stays → ComputesKey P.FnMut p result × (retained p from to (rows.old ++ behind) ≡ rows.new ++ retained p (from - length rows.old) (to - length rows.old) behind) }
    ensures fewer { length rows.new ≤ length rows.old }
{
    let len = rows.len();
    if len <= from {
        return stays;
    }
    rows.retain_range(from, to.min(len), stays)
}

/// Takes the rows of a stretch away that don't pass a test, from the piece on in which it begins. Gives the number of pieces
/// before that one, which have their places still, and whether a piece has none left.
pub fn retain_each<P: FnMut(&Row) -> bool>(
    pieces: &mut [Piece],
    from: usize,
    to: usize,
    mut stays: P,
) -> (usize, bool)
    requires callable { P.IsAlwaysCallable stays }
    requires order { from ≤ to }
    requires within { from ≤ length (joined pieces.old) }
    requires numbered { ArePlaced 0 pieces.old }
    ensures kept { (p : List Cell → Bool) → ComputesKey P.FnMut p stays → joined pieces.new ≡ retained p from to (joined pieces.old) }
    ensures fewer { length (joined pieces.new) ≤ length (joined pieces.old) }
    ensures within { result.0 ≤ length pieces.new }
    ensures numbered { ArePlaced 0 (take result.0 pieces.new) }
{
    let mut emptied = false;
    if pieces.is_empty() {
        return (0, emptied);
    }
    let first = piece_of(pieces, from);
    let start = pieces[first].start;
    let mut low = from - start;
    let mut high = to - start;
    for at in first..pieces.len() {
        let piece = &mut pieces[at];
        let len = piece.rows.len();
        stays = retain_some(&mut piece.rows, low, high, stays);
        emptied |= piece.rows.is_empty();
        low = low.saturating_sub(len);
        high = high.saturating_sub(len);
        if high == 0 {
            return (first, emptied);
        }
    }
    (first, emptied)
}

/// Takes the rows of a stretch away that aren't told to stay, as far as it goes over these, and gives what is told of the others.
fn retain_told_some<'a>(
    rows: &mut MarkedRows,
    from: usize,
    to: usize,
    stays: &'a [bool],
) -> &'a [bool]
    requires order { from ≤ to }
    requires each { length stays.now ≡ to - from }
    ensures each { length result.now ≡ (to - length rows.old) - (from - length rows.old) }
    ensures kept { (p : List Cell → Bool) (behind : List (List Cell)) → stays.now ≡ map p (take (to - from) (drop from (rows.old ++ behind))) → (result.now ≡ map p (take ((to - length rows.old) - (from - length rows.old)) (drop (from - length rows.old) behind))) × (retained p from to (rows.old ++ behind) ≡ rows.new ++ retained p (from - length rows.old) (to - length rows.old) behind) }
    ensures fewer { length rows.new ≤ length rows.old }
{
    let len = rows.len();
    if len <= from {
        return stays;
    }
    let end = to.min(len);
    let (here, rest) = stays.split_at(end - from);
    rows.retain_told(from, end, here);
    rest
}

/// Takes the rows of a stretch away that aren't told to stay, from the piece on in which it begins. Gives what `retain_each`
/// gives.
pub fn retain_told_each(
    pieces: &mut [Piece],
    from: usize,
    to: usize,
    stays: &[bool],
) -> (usize, bool)
    requires order { from ≤ to }
    requires within { from ≤ length (joined pieces.old) }
    requires each { length stays.now ≡ to - from }
    requires numbered { ArePlaced 0 pieces.old }
    ensures kept { (p : List Cell → Bool) → stays.now ≡ map p (take (to - from) (drop from (joined pieces.old))) → joined pieces.new ≡ retained p from to (joined pieces.old) }
    ensures fewer { length (joined pieces.new) ≤ length (joined pieces.old) }
    ensures within { result.0 ≤ length pieces.new }
    ensures numbered { ArePlaced 0 (take result.0 pieces.new) }
{
    let mut emptied = false;
    if pieces.is_empty() {
        return (0, emptied);
    }
    let first = piece_of(pieces, from);
    let start = pieces[first].start;
    let mut low = from - start;
    let mut high = to - start;
    let mut rest = stays;
    for at in first..pieces.len() {
        let piece = &mut pieces[at];
        let len = piece.rows.len();
        rest = retain_told_some(&mut piece.rows, low, high, rest);
        emptied |= piece.rows.is_empty();
        low = low.saturating_sub(len);
        high = high.saturating_sub(len);
        if high == 0 {
            return (first, emptied);
        }
    }
    (first, emptied)
}

/// Takes the pieces without rows away.
fn drop_empty(pieces: &mut Vec<Piece>)
    ensures { joined pieces.new.items ≡ joined pieces.old.items }
{
    pieces.retain(|piece| !piece.rows.is_empty());
}

/// Takes the pieces without rows away where one was emptied, and gives the number of pieces that have their places still.
fn drop_emptied(pieces: &mut Vec<Piece>, kept: usize, emptied: bool) -> usize
    requires within { kept ≤ length pieces.old.items }
    requires numbered { ArePlaced 0 (take kept pieces.old.items) }
    ensures joined { joined pieces.new.items ≡ joined pieces.old.items }
    ensures within { result ≤ length pieces.new.items }
    ensures numbered { ArePlaced 0 (take result pieces.new.items) }
{
    if !emptied {
        return kept;
    }
    drop_empty(pieces);
    0
}

/// Takes the pieces without rows away where one was emptied, gives each other piece its place, where so many have theirs still,
/// and gives the number of rows.
pub fn settle(pieces: &mut Vec<Piece>, kept: usize, emptied: bool) -> usize
    requires within { kept ≤ length pieces.old.items }
    requires numbered { ArePlaced 0 (take kept pieces.old.items) }
    requires few { length (joined pieces.old.items) < 2 ^ 64 }
    ensures joined { joined pieces.new.items ≡ joined pieces.old.items }
    ensures numbered { ArePlaced 0 pieces.new.items }
    ensures count { result ≡ length (joined pieces.old.items) }
{
    let kept = drop_emptied(pieces, kept, emptied);
    renumber(pieces.as_mut_slice(), kept)
}

/// Exchanges the rows of pieces for as many others.
pub fn exchange_each(pieces: &mut [Piece], rows: &mut [Row])
    requires { length rows.old ≡ length (joined pieces.old) }
    ensures held { joined pieces.new ≡ rows.old }
    ensures given { rows.new ≡ joined pieces.old }
{
    let mut start = 0;
    for at in 0..pieces.len() {
        let piece = &mut pieces[at];
        piece.rows.exchange(rows, start);
        start += piece.rows.len();
    }
}
