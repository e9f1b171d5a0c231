//! How many rows and lists a group has.

/// The most rows that the blocks of a group have together.
pub const MOST_GROUP_ROWS: u32 = 1_000_000;
/// The most lists that a group has.
pub const MOST_GROUP_LISTS: usize = 1_000_000;
