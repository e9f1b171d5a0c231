//! Devices over memory, whose calls fail as they are told to.

ghost use Rattle.std.specs.Prelude.{◌≡◌, ◌<◌, ◌≤◌, IfOk};

use crate::calls::Calls;
use crate::{Failed, Sink, Source};
use cqa_value::NoMemory;
use std::alloc::Global;
use std::marker::Model;

/// A source over bytes in memory. Its calls fail by their numbers.
#[derive(Drop)]
pub struct MemSource {
    bytes: Vec<u8>,
    place: usize,
    piece: usize,
    calls: Calls,
}

impl Model for MemSource {
    ghost use Rattle.std.specs.Prelude.{◌<◌, ◌≤◌, vec_len, drop};
    ghost use Rattle.cqa_io.specs.Memory.{SourceView};

    ghost Value = { SourceView };

    ghost view = { λ s. record { left = drop s.place s.bytes.items; piece = s.piece; calls = s.calls } };

    ghost invariant = { λ s. (s.place ≤ vec_len s.bytes) × (0 < s.piece) };
}

impl MemSource {
    /// A source of the bytes, which gives at most `piece` of them at a call. The calls whose
    /// numbers, from 1, are in `failing` fail.
    pub fn new(bytes: Vec<u8>, piece: usize, failing: Vec<u64>) -> MemSource
        requires { 0 < piece }
        ensures { result ≡ record { left = bytes.items; piece = piece; calls = record { failing = failing.items; done = 0 } } }
    {
        MemSource {
            bytes,
            place: 0,
            piece,
            calls: Calls::new(failing),
        }
    }

    /// The bytes left.
    pub fn left(&self) -> &[u8]
        ensures { result.now ≡ self.now.left }
    {
        &self.bytes[self.place..]
    }
}

impl Source for MemSource {
    ghost use Rattle.std.specs.Prelude.{◌≡◌, ◌<◌, Some, IfOk, is_err, length, min};
    ghost use Rattle.std.specs.Io.{ReadsAtMost};
    ghost use Rattle.std.specs.Io.KnownBytes.{ReadConsumes};
    ghost use Rattle.cqa_io.specs.Causes.{HasCause};
    ghost use Rattle.cqa_io.specs.Memory.{after_call, faults_of, next_fails};

    ghost left = { λ s. Some s.left };

    ghost faults = { λ s. faults_of s.calls };

    fn read(&mut self, into: &mut [u8]) -> Result<usize, Failed>
        requires { 0 < length into.old }
        ensures bound { ReadsAtMost result into.new }
        ensures bytes { ReadConsumes (Some self.old.left) (Some self.new.left) result into.new }
        ensures cause { HasCause (faults_of self.old.calls) (faults_of self.new.calls) result }
        ensures fails { is_err result ≡ next_fails self.old.calls }
        ensures count { IfOk result (λ n. n ≡ min self.old.piece (min (length into.old) (length self.old.left))) }
        ensures called { self.new.calls ≡ after_call self.old.calls }
        ensures piece { self.new.piece ≡ self.old.piece }
    {
        if self.calls.count() {
            return Err(Failed);
        }
        let left = self.left();
        let count = self.piece.min(into.len()).min(left.len());
        into[..count].copy_from_slice(&left[..count]);
        self.place += count;
        Ok(count)
    }
}

/// A sink over memory, which is taken when it is made. Its calls fail by their numbers, and where
/// it is full.
#[derive(Drop)]
pub struct MemSink {
    bytes: Vec<u8>,
    room: usize,
    calls: Calls,
    faults: u64,
}

impl Model for MemSink {
    ghost use Rattle.std.specs.Prelude.{◌≤◌, vec_len, vec_capacity};
    ghost use Rattle.cqa_io.specs.Memory.{SinkView};

    ghost Value = { SinkView };

    ghost view = { λ s. record { held = s.bytes.items; room = s.room; calls = s.calls; faults = s.faults } };

    ghost invariant = { λ s. (vec_len s.bytes ≤ s.room) × (s.room ≤ vec_capacity s.bytes) };
}

impl MemSink {
    ghost use Rattle.std.specs.Prelude.{[]};

    /// A sink with room for so many bytes. The calls whose numbers, from 1, are in `failing` fail.
    ///
    /// # Errors
    ///
    /// `NoMemory` where memory is refused.
    pub fn new(alloc: Global, room: usize, failing: Vec<u64>) -> Result<MemSink, NoMemory>
        ensures { IfOk result (λ s. s ≡ record { held = []; room = room; calls = record { failing = failing.items; done = 0 }; faults = 0 }) }
    {
        Ok(MemSink {
            bytes: Vec::with_capacity(alloc, room)?,
            room,
            calls: Calls::new(failing),
            faults: 0,
        })
    }

    /// The bytes that it holds.
    pub fn bytes(&self) -> &[u8]
        ensures { result.now ≡ self.now.held }
    {
        self.bytes.as_slice()
    }
}

impl Sink for MemSink {
    ghost use Rattle.std.specs.Prelude.{◌<◌, ◌≤◌, Some, IfOk, length};
    ghost use Rattle.std.specs.Io.KnownBytes.{WriteAppends};
    ghost use Rattle.cqa_io.specs.Causes.{HasCause};
    ghost use Rattle.cqa_io.specs.Memory.{WritesToMemory};

    ghost held = { λ s. Some s.held };

    ghost faults = { λ s. s.faults };

    ghost wrote = { WritesToMemory };

    fn write(&mut self, bytes: &[u8]) -> Result<usize, Failed>
        requires { 0 < length bytes.now }
        ensures some { IfOk result (λ n. 0 < n) }
        ensures bound { IfOk result (λ n. n ≤ length bytes.now) }
        ensures bytes { WriteAppends (Some self.old.held) (Some self.new.held) result bytes.now }
        ensures cause { HasCause self.old.faults self.new.faults result }
        ensures call { WritesToMemory self.old bytes.now result self.new }
    {
        let fails = self.calls.count();
        if fails || self.bytes.len() == self.room {
            self.faults = self.faults.saturating_add(1);
            return Err(Failed);
        }
        let count = bytes.len().min(self.room - self.bytes.len());
        match self.bytes.extend_from_slice(&bytes[..count]) {
            Ok(()) => Ok(count),
            Err(_) => Err(Failed),
        }
    }
}
