//! The loop: each group is judged as soon as its last line has come.

ghost use Rattle.std.specs.Prelude.{◌≡◌, ◌≤◌, ◌<◌, ℕ, [], length};
ghost use Rattle.group_stream.specs.Steps.{Stands};
ghost use Rattle.group_stream.specs.Ends.{end_of, end_with};
ghost use Rattle.group_stream.specs.Streams.{Streamed, told};

use crate::ending::{MOST_JUDGED, Stop, StreamEnd};
use crate::gathering::{Gathering, PIECE};
use crate::input::{read_piece, zeros};
use cqa_io::{Failed, Sink, Source};
use group_text::Wanted;
use std::alloc::Global;

/// How a stream ends whose answers stop.
fn end_of(stop: Stop) -> StreamEnd
    ensures { result ≡ end_of stop }
{
    match stop {
        Stop::WriteFault => StreamEnd::WriteFault,
        Stop::OutOfMemory => StreamEnd::OutOfMemory,
    }
}

/// How a stream ends whose last answers ended so.
fn end_with(last: Result<bool, Stop>) -> StreamEnd
    ensures { result ≡ end_with last }
{
    match last {
        Ok(true) => StreamEnd::WithRefusal,
        Ok(false) => StreamEnd::Answered,
        Err(stop) => end_of(stop),
    }
}

/// Judges the input piece by piece.
fn judge_pieces<S: Source, K: Sink>(
    alloc: Global,
    gathering: &mut Gathering,
    source: &mut S,
    sink: &mut K,
    piece: &mut [u8],
) -> StreamEnd
    requires count { gathering.old.machine.number ≡ 0 }
    requires none { gathering.old.out ≡ [] }
    requires piece { 0 < length piece.old }
    ensures row { (wanted : Wanted) (budget : ℕ) → Stands wanted budget [] [] gathering.old → Streamed wanted budget result (told (S.left source.old) (K.held sink.old) (S.faults source.old) (K.faults sink.old)) (told (S.left source.new) (K.held sink.new) (S.faults source.new) (K.faults sink.new)) }
    ensures reads { S.faults source.old ≤ S.faults source.new }
    ensures writes { K.faults sink.old ≤ K.faults sink.new }
{
    let mut came = 0;
    while came <= MOST_JUDGED {
        match read_piece(source, piece, MOST_JUDGED + 1 - came) {
            Err(Failed) => return StreamEnd::ReadFault,
            Ok(0) => return end_with(gathering.finish(alloc, sink)),
            Ok(count) => {
                let kept = count.min(MOST_JUDGED - came);
                match gathering.take_piece(alloc, &piece[..kept], sink) {
                    Ok(()) => came += count,
                    Err(stop) => return end_of(stop),
                }
            }
        }
    }
    StreamEnd::TooLong
}

/// Reads groups to the end of the source and hands the reply to each to the sink, as soon as its last line has come: those to a
/// piece are written before more is read. It says what is wanted of each group. A search for a verdict has at most `budget`
/// conflicts, and one for a least or a greatest value looks at no more than `budget` lists.
pub fn judge_stream<S: Source, K: Sink>(
    alloc: Global,
    wanted: Wanted,
    budget: u32,
    source: &mut S,
    sink: &mut K,
) -> StreamEnd
    ensures row { Streamed wanted budget result (told (S.left source.old) (K.held sink.old) (S.faults source.old) (K.faults sink.old)) (told (S.left source.new) (K.held sink.new) (S.faults source.new) (K.faults sink.new)) }
    ensures reads { S.faults source.old ≤ S.faults source.new }
    ensures writes { K.faults sink.old ≤ K.faults sink.new }
{
    let Ok(mut piece) = zeros(alloc, PIECE) else {
        return StreamEnd::OutOfMemory;
    };
    let mut gathering = Gathering::new(alloc, wanted, budget);
    let ending = judge_pieces(alloc, &mut gathering, source, sink, piece.as_mut_slice());
    drop(gathering);
    drop(piece);
    ending
}
