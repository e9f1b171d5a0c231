//! The numbers of the calls of a device in memory.

ghost use Rattle.std.specs.Prelude.{◌≡◌};
ghost use Rattle.cqa_io.specs.Memory.{after_call, next_fails};

use std::marker::Model;

/// The calls of a device in memory: the numbers of those that fail, from 1, and how many have had
/// a number.
#[derive(Drop)]
pub struct Calls {
    failing: Vec<u64>,
    done: u64,
}

impl Model for Calls {
    ghost use Rattle.cqa_io.specs.Memory.{Numbered};

    ghost Value = { Numbered };

    ghost view = { λ c. record { failing = c.failing.items; done = c.done } };
}

impl Calls {
    /// No call was made so far; those with these numbers, counted from 1, will fail.
    pub fn new(failing: Vec<u64>) -> Calls
        ensures { result ≡ record { failing = failing.items; done = 0 } }
    {
        Calls { failing, done: 0 }
    }

    /// Counts a call, and tells whether it fails. After the last number a call has none.
    pub fn count(&mut self) -> bool
        ensures fails { result ≡ next_fails self.old }
        ensures counted { self.new ≡ after_call self.old }
    {
        if self.done == u64::MAX {
            return false;
        }
        self.done += 1;
        self.failing.contains(&self.done)
    }
}
