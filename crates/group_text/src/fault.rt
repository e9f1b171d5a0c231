//! What may be wrong with the lines of groups.

/// A fault, in the order in which the faults of a line come.
#[derive(Clone, Copy, Debug, PartialEq, Eq)]
pub enum Fault {
    /// The line is longer than the limit, and no comment.
    LongLine,
    /// It begins with none of `g`, `l` and `e`, or something stands behind `e`.
    BadLine,
    /// `l` or `e` outside a group.
    NoGroup,
    /// A group isn't ended.
    Unfinished,
    /// No size from 1 to the limit.
    BadSize,
    /// The blocks have more rows together than the limit.
    ManyRows,
    /// The group has as many lists as the limit.
    ManyLists,
    /// No block and row, two numbers with a colon between.
    BadRow,
    /// The group's lists name as many rows as the limit.
    ManyNames,
    /// The group has no such block, or no such row in it.
    UnknownRow,
    /// Behind the rows of a list stands no `=` with one integer of 64 bits.
    BadWeight,
    /// The search for a group used up so many conflicts.
    Spent(u32),
    /// The search for a group's least and greatest value did so much work, in lists that it looked at.
    Overworked(u32),
    /// A log was found that isn't verified as it is written.
    Unverified,
}
