//! Rows that go behind all those of pieces, many at once or one.

ghost use Rattle.std.specs.Prelude.{◌≡◌, ◌≤◌, ◌++◌, ◌∷◌, OnOk, OnErr, [], length, reverse, take};
ghost use Rattle.row_pieces.specs.declared.piece.Piece.{Piece as PieceOfRows};
ghost use Rattle.row_pieces.specs.Joined.{joined, ArePlaced};

use crate::marked::MarkedRows;
use crate::piece::{MOST_IN_PIECE, Piece};
use cqa_value::{NoMemory, Row};

/// Cuts rows into pieces, from the last on, until few are left.
///
/// # Errors
///
/// `NoMemory` where memory is refused.
fn cut_off(rows: &mut Vec<Row>, cut: &mut Vec<Piece>) -> Result<(), NoMemory>
    requires { cut.old.items ≡ [] }
    ensures { OnOk result (rows.new.items ++ joined (reverse cut.new.items) ≡ rows.old.items) }
{
    while rows.len() > MOST_IN_PIECE {
        let rest = rows.split_off(rows.len() - MOST_IN_PIECE)?;
        let rows = MarkedRows::of(rest)?;
        cut.push(Piece { start: 0, rows })?;
    }
    Ok(())
}

/// The same, with those that are left as the last piece.
fn cut_all(rows: &mut Vec<Row>, cut: &mut Vec<Piece>) -> Result<(), NoMemory>
    requires { cut.old.items ≡ [] }
    ensures { OnOk result (joined (reverse cut.new.items) ≡ rows.old.items) }
{
    cut_off(rows, cut)?;
    cut.reserve(1)?;
    rows.shrink_to_fit();
    let alloc = *rows.allocator();
    let rows = MarkedRows::of(std::mem::replace(rows, Vec::new(alloc)))?;
    cut.push_reserved(Piece { start: 0, rows });
    Ok(())
}

/// Cuts rows into pieces, and puts these behind others.
fn move_behind(
    pieces: &mut Vec<Piece>,
    rows: &mut Vec<Row>,
    cut: &mut Vec<Piece>,
) -> Result<(), NoMemory>
    requires { cut.old.items ≡ [] }
    ensures ok { OnOk result (joined pieces.new.items ≡ joined pieces.old.items ++ rows.old.items) }
    ensures err { OnErr result (joined pieces.new.items ≡ joined pieces.old.items) }
    ensures more { OnOk result (length pieces.old.items ≤ length pieces.new.items) }
    ensures front { OnOk result (take (length pieces.old.items) pieces.new.items ≡ pieces.old.items) }
{
    cut_all(rows, cut)?;
    cut.reverse();
    pieces.append(cut)?;
    Ok(())
}

/// Puts rows behind all those of pieces, in pieces of their own.
///
/// # Errors
///
/// `NoMemory` where memory is refused; the pieces hold the same rows as before then.
fn add_pieces(pieces: &mut Vec<Piece>, rows: &mut Vec<Row>) -> Result<(), NoMemory>
    ensures ok { OnOk result (joined pieces.new.items ≡ joined pieces.old.items ++ rows.old.items) }
    ensures err { OnErr result (joined pieces.new.items ≡ joined pieces.old.items) }
    ensures more { OnOk result (length pieces.old.items ≤ length pieces.new.items) }
    ensures front { OnOk result (take (length pieces.old.items) pieces.new.items ≡ pieces.old.items) }
{
    let mut cut = Vec::new(*rows.allocator());
    let done = move_behind(pieces, rows, &mut cut);
    drop(cut);
    done
}

/// Puts rows behind all those of pieces: in the last one if that has room for them. The pieces that were there keep their places.
///
/// # Errors
///
/// `NoMemory` where memory is refused; the pieces hold the same rows as before then.
pub fn add_behind(pieces: &mut Vec<Piece>, rows: &mut Vec<Row>) -> Result<(), NoMemory>
    ensures ok { OnOk result (joined pieces.new.items ≡ joined pieces.old.items ++ rows.old.items) }
    ensures err { OnErr result (joined pieces.new.items ≡ joined pieces.old.items) }
    ensures more { OnOk result (length pieces.old.items ≤ length pieces.new.items) }
    ensures kept { OnOk result (ArePlaced 0 pieces.old.items → ArePlaced 0 (take (length pieces.old.items) pieces.new.items)) }
{
    let count = pieces.len();
    if count == 0 || pieces[count - 1].rows.len().saturating_add(rows.len()) > MOST_IN_PIECE {
        return add_pieces(pieces, rows);
    }
    let last = &mut pieces[count - 1];
    last.rows.append(rows)?;
    Ok(())
}

/// Begins a piece with a row behind all those of pieces. The first piece has little room, each further one has all.
///
/// # Errors
///
/// `NoMemory` where memory is refused; the pieces are as before then.
fn begin_piece(pieces: &mut Vec<Piece>, start: usize, row: Row) -> Result<(), NoMemory>
    ensures ok { OnOk result ((piece : PieceOfRows) × (pieces.new.items ≡ pieces.old.items ++ piece ∷ []) × (piece.start ≡ start) × (piece.rows ≡ row ∷ [])) }
    ensures err { OnErr result (pieces.new.items ≡ pieces.old.items) }
{
    let room = if pieces.is_empty() { 1 } else { MOST_IN_PIECE };
    pieces.reserve(1)?;
    let mut rows = MarkedRows::with_room(*pieces.allocator(), room)?;
    rows.push(row)?;
    pieces.push_reserved(Piece { start, rows });
    Ok(())
}

/// Puts a row behind all those of pieces, so many: into the last piece if that has room for it.
///
/// # Errors
///
/// `NoMemory` where memory is refused; the pieces hold the same rows as before then.
pub fn push_behind(pieces: &mut Vec<Piece>, count: usize, row: Row) -> Result<(), NoMemory>
    requires numbered { ArePlaced 0 pieces.old.items }
    requires count { count ≡ length (joined pieces.old.items) }
    ensures ok { OnOk result (joined pieces.new.items ≡ joined pieces.old.items ++ row ∷ []) }
    ensures err { OnErr result (joined pieces.new.items ≡ joined pieces.old.items) }
    ensures numbered { ArePlaced 0 pieces.new.items }
{
    let some = pieces.len();
    if some == 0 || pieces[some - 1].rows.len() >= MOST_IN_PIECE {
        return begin_piece(pieces, count, row);
    }
    let last = &mut pieces[some - 1];
    last.rows.push(row)
}
