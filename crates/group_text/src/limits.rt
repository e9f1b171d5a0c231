//! The limits of the text of groups. Those of a group's blocks and of how many lists it has are [`block_lists`]'s.

/// The most bytes that a line has, unless it is a comment.
pub const LONGEST_LINE: usize = 16_777_216;

/// The most rows that are named in the lists of a group, counted as often as they are named.
pub const MOST_NAMES: usize = 16_000_000;
