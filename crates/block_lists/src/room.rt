//! Room for one group after the other.

use std::alloc::Global;

/// Room that is used again for each group, so that a small one takes no memory of its own.
pub struct Room {
    /// Of a group that is judged open, a row of each block, by which no list is held whole.
    pub choice: Vec<u32>,
}

impl Drop for Room {
    fn drop(self) {
        let Room { choice: _ } = self;
    }
}

impl Room {
    /// Room in which nothing is yet.
    pub fn new(alloc: Global) -> Room {
        Room {
            choice: Vec::new(alloc),
        }
    }
}
