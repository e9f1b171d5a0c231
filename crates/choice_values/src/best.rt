//! What a search gives: a value and a choice that has it, or why there is none.

use cqa_value::NoMemory;
use std::alloc::{AllocError, AllocFailed};

/// A value, and the row of each block of a choice that has it.
#[derive(Debug, Drop)]
pub struct Best {
    pub value: i128,
    pub rows: Vec<u32>,
}

/// Why a search gave up.
#[derive(Clone, Copy, Debug, PartialEq, Eq)]
pub enum Fault {
    /// Memory is refused.
    NoMemory,
    /// The work of the budget is done, the cases are too deep within one another, or a sum is past `i128`.
    Spent,
}

impl From<NoMemory> for Fault {
    fn from(_: NoMemory) -> Self {
        Fault::NoMemory
    }
}

impl From<AllocError> for Fault {
    fn from(_: AllocError) -> Self {
        Fault::NoMemory
    }
}

impl<T: Drop> From<AllocFailed<T>> for Fault {
    fn from(_: AllocFailed<T>) -> Self {
        Fault::NoMemory
    }
}
