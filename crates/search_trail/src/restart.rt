//! When the search starts anew: after numbers of conflicts that follow the sequence 1, 1, 2, 1, 1, 2, 4, 1, .. (Luby, Sinclair
//! and Zuckerman, 1993), by Knuth's rule for it.

/// How many searches, each up to a conflict, a 1 of the sequence stands for.
const UNIT: u64 = 400;

/// Where a search stands in the sequence.
#[derive(Clone, Copy)]
pub struct Restarts {
    turn: u64,
    length: u64,
    /// The searches up to the next restart.
    left: u64,
}

impl Restarts {
    /// The beginning of the sequence.
    pub fn new() -> Restarts {
        Restarts {
            turn: 1,
            length: 1,
            left: UNIT,
        }
    }

    /// Counts a search, and tells whether it is to start anew.
    pub fn is_due(&mut self) -> bool {
        if self.left > 1 {
            self.left -= 1;
            return false;
        }
        if self.turn & self.turn.wrapping_neg() == self.length {
            self.turn = self.turn.wrapping_add(1);
            self.length = 1;
        } else {
            self.length = self.length.saturating_mul(2);
        }
        self.left = self.length.saturating_mul(UNIT);
        true
    }
}
