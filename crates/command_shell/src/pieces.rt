//! The loop of `run` and `demo`: each statement is answered as soon as its bytes have come.

ghost use Rattle.std.specs.Prelude.{◌≡◌, ◌≤◌, ◌<◌, [], length};
ghost use Rattle.command_shell.specs.GoingOn.{GoesOnFrom};
ghost use Rattle.command_shell.specs.Top.{told};
ghost use Rattle.command_shell.specs.Taking.{HandsOn};
ghost use Rattle.command_shell.specs.Parts.{ending_with};

use crate::Session;
use crate::answers::{answer_held, answer_piece};
use crate::ending::{Ending, Stop};
use crate::input::{PIECE, read_piece, zeros};
use crate::laws::goes_on;
use crate::taker::Taker;
use cqa_io::{Failed, Source};
use cqa_model::LONGEST_INPUT;
use script_lex::Cutter;
use std::alloc::Global;

/// How a run ends whose last answers ended so; `refused` says whether a statement before them was refused.
fn ending_with(last: Result<bool, Stop>, refused: bool) -> Ending
    ensures { result ≡ ending_with last refused }
{
    match last {
        Ok(more) => {
            if refused || more {
                Ending::WithRefusal
            } else {
                Ending::Answered
            }
        }
        Err(stop) => Ending::from(stop),
    }
}

/// Answers the input piece by piece. What isn't answered yet is held. Where the machine goes on from the state at the end, answers
/// that were cut short begin a run over all bytes.
fn answer_pieces<S: Source, T: Taker>(
    alloc: Global,
    session: &mut Session,
    source: &mut S,
    taker: &mut T,
    held: &mut Cutter,
    piece: &mut [u8],
) -> Ending
    requires empty { held.old ≡ [] }
    requires piece { 0 < length piece.old }
    ensures row { GoesOnFrom session.new → HandsOn T.took taker.old taker.new result (told (S.left source.old) (T.written taker.old) (S.faults source.old) (T.faults taker.old)) (told (S.left source.new) (T.written taker.new) (S.faults source.new) (T.faults taker.new)) session.old session.new }
    ensures reads { S.faults source.old ≤ S.faults source.new }
    ensures writes { T.faults taker.old ≤ T.faults taker.new }
{
    let mut came = 0;
    let mut refused = false;
    while came <= LONGEST_INPUT {
        match read_piece(source, piece, LONGEST_INPUT + 1 - came) {
            Err(Failed) => return Ending::ReadFault,
            Ok(0) => return ending_with(answer_held(alloc, session, taker, held, true), refused),
            Ok(count) => {
                let kept = count.min(LONGEST_INPUT - came);
                match answer_piece(alloc, session, taker, held, &piece[..kept]) {
                    Ok(more) => refused |= more,
                    Err(stop) => return Ending::from(stop),
                }
                came += count;
            }
        }
    }
    Ending::TooLong
}

/// Reads the input, answers each statement as soon as it is complete, and hands the reply to the taker.
pub fn run<S: Source, T: Taker>(
    alloc: Global,
    session: &mut Session,
    source: &mut S,
    taker: &mut T,
) -> Ending
    ensures row { HandsOn T.took taker.old taker.new result (told (S.left source.old) (T.written taker.old) (S.faults source.old) (T.faults taker.old)) (told (S.left source.new) (T.written taker.new) (S.faults source.new) (T.faults taker.new)) session.old session.new }
    ensures reads { S.faults source.old ≤ S.faults source.new }
    ensures writes { T.faults taker.old ≤ T.faults taker.new }
{
    let Ok(mut piece) = zeros(alloc, PIECE) else {
        return Ending::OutOfMemory;
    };
    let mut held = Cutter::new(alloc);
    let ending = answer_pieces(
        alloc,
        session,
        source,
        taker,
        &mut held,
        piece.as_mut_slice(),
    );
    drop(held);
    drop(piece);
    goes_on(session);
    ending
}
