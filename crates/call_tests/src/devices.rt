//! A writer of std, which is flushed: devices in memory hold no bytes back.

use cqa_io::{Failed, Sink, StdSink};
use std::io;
use std::io::Write;

/// A writer of std that takes each byte, and fails where it is flushed.
#[derive(Drop)]
struct Unflushed;

impl Write for Unflushed {
    fn write(&mut self, bytes: &[u8]) -> io::Result<usize> {
        Ok(bytes.len())
    }

    fn flush(&mut self) -> io::Result<()> {
        Err(io::Error::from(io::ErrorKind::BrokenPipe))
    }
}

#[test]
fn a_writer_of_std_is_flushed_after_each_piece(rt: HostRuntime) {
    let mut sink = StdSink::new(Unflushed);
    let answer = sink.write(b"abc");
    drop(sink);
    assert!(rt; answer == Err(Failed));
}
