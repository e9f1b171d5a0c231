//! Rows by their key values: the order of a table's rows and how rows are put in it, values of rows, first key values that
//! are looked for, and lists of a bounded number of values.
#![tactic(auto)]

mod cells;
mod compare;
mod flat;
mod inline_vec;
mod null_allocator;
mod order;
mod settle;
mod short_list;
mod sort;

pub use cells::cell;
pub use compare::{block_compare, key_compare};
pub use inline_vec::InlineVec;
pub use null_allocator::NullAllocator;
pub use order::put_in_order;
pub use short_list::{Probe, ShortList};
