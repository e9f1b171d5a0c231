//! The rows of a table as a list that is cheap to change anywhere, and parts of it that are borrowed. A piece holds rows beside
//! their marks: numbers that tell the order of most rows, so that a search looks at few of them.
#![tactic(auto)]

mod add;
mod guess;
mod keep;
mod mark;
mod marked;
mod near;
mod piece;
mod pieces;
mod put;
mod rows;
mod take;

pub use pieces::Pieces;
pub use rows::Rows;
