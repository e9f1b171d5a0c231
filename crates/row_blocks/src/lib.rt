//! Blocks of rows: whether rows share a key, and where the block of a row begins and ends among rows in block order.
#![tactic(auto)]

mod blocks;

pub use blocks::{block_end, block_start, goes_on, same_key};
