//! All witnesses of one row, by the names of their rows, and the places that the rows of each atom have in them: what tells
//! whether the row is certain.
#![tactic(auto)]

mod column;
mod found;

pub use column::place_of;
pub use found::RowWitnesses;
