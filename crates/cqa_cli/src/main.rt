//! The program `cqa`: a machine over its standard input and output.
#![tactic(auto)]

use command_shell::{CONFLICTS, Session, run_words};
use cqa_io::{StdSink, StdSource};
use std::env;
use std::io::ErrorKind;
use std::mem::forget;
use std::process::ExitCode;

/// The status where the words can't be obtained.
const NO_WORDS: u8 = 7;

/// The status where memory for the words is refused.
const OUT_OF_MEMORY: u8 = 5;

/// The words behind the program's name, or the status where they can't be had.
fn words(rt: &HostRuntime) -> Result<Vec<String>, u8> {
    let args = match env::args(rt) {
        Ok(args) => args,
        Err(error) if error.kind() == ErrorKind::OutOfMemory => return Err(OUT_OF_MEMORY),
        Err(_) => return Err(NO_WORDS),
    };
    let mut words = Vec::new(rt.alloc());
    for word in args.skip(1) {
        if words.push(word).is_err() {
            return Err(OUT_OF_MEMORY);
        }
    }
    Ok(words)
}

/// Runs the machine over standard input and output, and answers its status.
fn status(rt: &HostRuntime, words: &[String]) -> u8 {
    let alloc = rt.alloc();
    let mut session = Session::new(alloc, CONFLICTS);
    let mut source = StdSource::new(rt.stdin());
    let mut sink = StdSink::new(rt.stdout());
    let status = run_words(alloc, words, &mut session, &mut source, &mut sink);
    // The end of the process gives its memory back at once, which row by row takes a while.
    forget(session);
    status
}

fn main(rt: HostRuntime) -> ExitCode {
    match words(&rt) {
        Ok(words) => ExitCode::from(status(&rt, words.as_slice())),
        Err(status) => ExitCode::from(status),
    }
}
