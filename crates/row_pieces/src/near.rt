//! Guesses of the piece that has a place. Nothing is promised of them: who uses one looks whether it is right.

use crate::piece::Piece;

/// Whether a piece begins at a place or before it; one that isn't there doesn't.
fn begins_by(pieces: &[Piece], at: usize, place: usize) -> bool {
    match pieces.get(at) {
        Some(piece) => piece.start <= place,
        None => false,
    }
}

/// So often a step is doubled at most: then it goes over all pieces that there can be.
const MOST_STEPS: u32 = 20;

/// A piece that begins at a place or before it, from one on down by doubling steps; 0 where none is found.
fn down_from(pieces: &[Piece], at: usize, place: usize) -> usize {
    let mut low = at;
    let mut step = 1usize;
    for _doubling in 0..MOST_STEPS {
        if begins_by(pieces, low, place) {
            return low;
        }
        low = low.saturating_sub(step);
        step = step.saturating_mul(2);
    }
    0
}

/// A piece that doesn't begin at a place or before it, from one on up by doubling steps; the number of pieces where none is
/// found.
fn up_from(pieces: &[Piece], at: usize, place: usize) -> usize {
    let mut high = at;
    let mut step = 1usize;
    for _doubling in 0..MOST_STEPS {
        if !begins_by(pieces, high, place) {
            return high.min(pieces.len());
        }
        high = high.saturating_add(step);
        step = step.saturating_mul(2);
    }
    pieces.len()
}

/// The piece that has a place, looked for from one on that may be near it.
pub fn piece_from(pieces: &[Piece], at: usize, place: usize) -> usize {
    let (low, high) = if begins_by(pieces, at, place) {
        (at, up_from(pieces, at.saturating_add(1), place))
    } else {
        (down_from(pieces, at, place), at)
    };
    let between = match pieces.get(low..high) {
        Some(between) => between,
        None => pieces,
    };
    low.saturating_add(between.partition_point(|piece| piece.start <= place))
        .saturating_sub(1)
}

/// About which piece has a place, if all are about as long as one another.
pub fn piece_about(pieces: &[Piece], place: usize) -> usize {
    let (Some(first), Some(last)) = (pieces.first(), pieces.last()) else {
        return 0;
    };
    let behind = pieces.len().saturating_sub(1);
    if place >= last.start {
        return behind;
    }
    let part = place.saturating_sub(first.start).saturating_mul(behind);
    part / last.start.saturating_sub(first.start).max(1)
}
