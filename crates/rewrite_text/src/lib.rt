//! Certificates of rewriting: the text of the blocks by which a row is certain, which can be checked without the database.
#![tactic(auto)]

mod draft;
pub mod laws;
mod printed;
mod query;
mod statements;
mod tree;

pub use draft::{LONGEST_CERTIFICATE, TooLong};
pub use printed::certificate;
