//! Ranges of aggregates over joins by groups: for each value that the witnesses of a query have in a column, both ends of
//! a count, a sum, or a least or greatest value over the witnesses that have it. The tables of all atoms but one have to
//! be strict.
#![tactic(auto)]

mod ask;
mod block_spans;
mod block_sums;
mod group_peaks;
mod group_sums;
mod groups;
mod members;
mod shares;
mod surest;
mod touched;

pub use groups::join_groups;
