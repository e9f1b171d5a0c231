//! Lists of rows of blocks that are told by their sizes alone: whether each choice of a row of each block holds one of them whole.
//! No table stands in it.
#![tactic(auto)]

mod clauses;
mod formula;
mod guess;
mod judging;
pub mod laws;
mod limits;
mod numbers;
mod picks;
mod proving;
mod room;
mod walking;

pub use formula::formula_of;
pub use judging::{Judged, judge};
pub use limits::{MOST_GROUP_LISTS, MOST_GROUP_ROWS};
pub use picks::fill_choice;
pub use proving::{Proved, prove};
pub use room::Room;
pub use walking::{MOST_LOOKS, Walked, walk};
