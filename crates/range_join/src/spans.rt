//! The blocks of a table by the places of their rows.

/// The places of the rows of a block: from one on, up to the one before another.
#[derive(Clone, Copy)]
pub struct Span {
    pub from: u32,
    pub behind: u32,
}
