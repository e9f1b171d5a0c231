//! The formula of a row, by which it is decided whether every repair holds a witness of it (Dixit and Kolaitis, SAT 2019).
//! It is that of the lists of the row's witnesses over the query's tables. A row that free rows alone keep from being certain needs
//! no formula, and for it no block is walked.
#![tactic(auto)]

mod avoiding;
mod formula;
mod frame;
pub mod laws;

pub use avoiding::are_avoidable;
pub use formula::encode;
pub use frame::query_frame;
