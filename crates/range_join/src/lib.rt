//! Ranges of aggregates over joins: between which ends a count, a sum, or a least or greatest value over the witnesses
//! of a query lies in every repair, and for each end a repair that has it. The tables of all atoms but one have to be
//! strict.
#![tactic(auto)]

mod bounds;
mod carriers;
mod extremes;
mod first_rows;
mod gains;
mod names;
mod numbers;
mod peaks;
mod range;
mod sought;
mod spans;
mod sums;
mod worths;

pub use carriers::{Extreme, Look, further, lags};
pub use first_rows::firsts;
pub use gains::{gain, row_of};
pub use range::{join_range, look};
pub use sought::Sought;
pub use spans::Span;
