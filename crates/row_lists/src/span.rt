//! A block whose rows are numbered, as a run of places.

/// A block of rows that are variables: the slot of its table, its rows' places, and how many variables come before them.
#[derive(Clone, Copy, Debug)]
pub struct Span {
    pub slot: u32,
    pub start: u32,
    pub count: u32,
    pub base: u32,
}
