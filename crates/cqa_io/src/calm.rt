//! Devices that never fail: a source whose bytes are all there, and a sink that only counts.

ghost use Rattle.std.specs.Prelude.{◌≡◌, ◌<◌, ◌≤◌, IfOk, length};

use crate::{Failed, Sink, Source};
use std::marker::Model;

/// A source whose bytes are all there. No call fails, and each gives as many as there is room for.
#[derive(Drop)]
pub struct CalmSource {
    bytes: Vec<u8>,
    place: usize,
}

impl Model for CalmSource {
    ghost use Rattle.std.specs.Prelude.{◌≤◌, vec_len, drop};
    ghost use Rattle.cqa_io.specs.Calm.{CalmView};

    ghost Value = { CalmView };

    ghost view = { λ s. record { left = drop s.place s.bytes.items } };

    ghost invariant = { λ s. s.place ≤ vec_len s.bytes };
}

impl CalmSource {
    /// A source of the bytes.
    pub fn new(bytes: Vec<u8>) -> CalmSource
        ensures { result ≡ record { left = bytes.items } }
    {
        CalmSource { bytes, place: 0 }
    }

    /// The bytes left.
    fn left(&self) -> &[u8]
        ensures { result.now ≡ self.now.left }
    {
        &self.bytes[self.place..]
    }
}

impl Source for CalmSource {
    ghost use Rattle.std.specs.Prelude.{Ok, Some, min};
    ghost use Rattle.std.specs.Io.{ReadsAtMost};
    ghost use Rattle.std.specs.Io.KnownBytes.{ReadConsumes};
    ghost use Rattle.cqa_io.specs.Causes.{HasCause};

    ghost left = { λ s. Some s.left };

    ghost faults = { λ _. 0 };

    fn read(&mut self, into: &mut [u8]) -> Result<usize, Failed>
        requires { 0 < length into.old }
        ensures bound { ReadsAtMost result into.new }
        ensures bytes { ReadConsumes (Some self.old.left) (Some self.new.left) result into.new }
        ensures cause { HasCause 0 0 result }
        ensures count { result ≡ Ok (min (length into.old) (length self.old.left)) }
    {
        let left = self.left();
        let count = into.len().min(left.len());
        into[..count].copy_from_slice(&left[..count]);
        self.place += count;
        Ok(count)
    }
}

/// A sink that counts the bytes that it takes, and keeps none. The count stands still at the last number of 64 bits.
#[derive(Drop)]
pub struct CountSink {
    taken: u64,
}

impl Model for CountSink {
    ghost use Rattle.std.specs.Prelude.{ℕ};

    ghost Value = { ℕ };

    ghost view = { λ s. s.taken };
}

impl CountSink {
    /// A sink that has taken no byte.
    pub const fn new() -> CountSink
        ensures { result ≡ 0 }
    {
        CountSink { taken: 0 }
    }

    /// How many bytes it has taken.
    pub fn count(&self) -> u64
        ensures { result ≡ self.now }
    {
        self.taken
    }
}

impl Sink for CountSink {
    ghost use Rattle.std.specs.Prelude.{None};
    ghost use Rattle.cqa_io.specs.Causes.{HasCause};
    ghost use Rattle.cqa_io.specs.Calm.{CountsPiece};

    ghost held = { λ _. None };

    ghost faults = { λ _. 0 };

    ghost wrote = { CountsPiece };

    fn write(&mut self, bytes: &[u8]) -> Result<usize, Failed>
        requires { 0 < length bytes.now }
        ensures some { IfOk result (λ n. 0 < n) }
        ensures bound { IfOk result (λ n. n ≤ length bytes.now) }
        ensures cause { HasCause 0 0 result }
        ensures call { CountsPiece self.old bytes.now result self.new }
    {
        self.taken = self.taken.saturating_add(bytes.len() as u64);
        Ok(bytes.len())
    }
}
