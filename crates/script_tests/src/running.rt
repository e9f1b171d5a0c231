//! A call of the program, over a new session and devices in memory.

ghost use Rattle.std.specs.Prelude.{◌≡◌, ◌∷◌, [], IfOk, map, max, string_bytes};
ghost use Rattle.command_shell.specs.Top.{told};
ghost use Rattle.script_tests.specs.Calls.{Ends, IsCall};

use command_shell::{CONFLICTS, Session, run_words};
use cqa_io::{CalmSource, CountSink, MemSink, MemSource, Sink, Source};
use std::alloc::{AllocError, Global};

/// A call of the program, and how it has to end.
#[derive(Drop, Clone, Copy)]
pub struct Case<'a> {
    /// The words.
    pub words: &'a [&'a str],
    /// The input.
    pub input: &'a [u8],
    /// The most bytes that one read gives.
    pub piece: usize,
    /// The number of the read that fails, from 1; 0 where none does.
    pub read: u64,
    /// The number of the write that fails, from 1; 0 where none does.
    pub write: u64,
    /// The most bytes that the output takes.
    pub room: usize,
    /// The status that it has to end with.
    pub status: u8,
    /// The output that it has to give.
    pub output: &'a [u8],
}

/// How a call ended.
#[derive(Drop)]
pub struct End {
    /// The status.
    pub status: u8,
    /// What is left of the input.
    pub source: MemSource,
    /// What holds the output.
    pub sink: MemSink,
}

fn words_of(alloc: Global, case: &Case<'_>) -> Result<Vec<String>, AllocError>
    ensures { IfOk result (λ words. map string_bytes words.items ≡ map (λ word. word.now) case.now.words.now) }
{
    let mut words = Vec::new(alloc);
    for word in case.words {
        words.push(String::from_str(alloc, word)?)?;
    }
    Ok(words)
}

fn source_of(alloc: Global, case: &Case<'_>) -> Result<MemSource, AllocError>
    ensures { IfOk result (λ source. source ≡ record { left = case.now.input.now; piece = max case.now.piece 1; calls = record { failing = case.now.read ∷ []; done = 0 } }) }
{
    let failing = vec![in alloc; case.read]?;
    let bytes = Vec::from_slice(alloc, case.input)?;
    Ok(MemSource::new(bytes, case.piece.max(1), failing))
}

fn sink_of(alloc: Global, case: &Case<'_>) -> Result<MemSink, AllocError>
    ensures { IfOk result (λ sink. sink ≡ record { held = []; room = case.now.room; calls = record { failing = case.now.write ∷ []; done = 0 }; faults = 0 }) }
{
    let failing = vec![in alloc; case.write]?;
    MemSink::new(alloc, case.room, failing).map_err(|_| AllocError)
}

/// The status of a call of the program on a case's words, over these devices.
pub fn status_of<S: Source, K: Sink>(
    alloc: Global,
    case: &Case<'_>,
    source: &mut S,
    sink: &mut K,
) -> Result<u8, AllocError>
    ensures { IfOk result (λ status. IsCall (map (λ word. word.now) case.now.words.now) (told (S.left source.old) (K.held sink.old) (S.faults source.old) (K.faults sink.old)) status (told (S.left source.new) (K.held sink.new) (S.faults source.new) (K.faults sink.new))) }
{
    let words = words_of(alloc, case)?;
    let mut session = Session::new(alloc, CONFLICTS);
    let status = run_words(alloc, words.as_slice(), &mut session, source, sink);
    drop(session);
    drop(words);
    Ok(status)
}

/// Calls the program.
pub fn run(alloc: Global, case: &Case<'_>) -> Result<End, AllocError>
    ensures { IfOk result (Ends case.now) }
{
    let mut source = source_of(alloc, case)?;
    let mut sink = sink_of(alloc, case)?;
    let status = status_of(alloc, case, &mut source, &mut sink)?;
    Ok(End {
        status,
        source,
        sink,
    })
}

/// Calls the program over devices that never fail, and tells its status and how many bytes it wrote.
pub fn run_calm(alloc: Global, case: &Case<'_>) -> Result<(u8, u64), AllocError> {
    let mut source = CalmSource::new(Vec::from_slice(alloc, case.input)?);
    let mut sink = CountSink::new();
    let status = status_of(alloc, case, &mut source, &mut sink)?;
    drop(source);
    let written = sink.count();
    drop(sink);
    Ok((status, written))
}
