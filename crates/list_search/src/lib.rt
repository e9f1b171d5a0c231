//! Lists of names of rows, judged: whether every repair keeps one of them whole. Rows in no list may show that a repair keeps none;
//! a first look decides most small formulas; what it leaves open goes to the solver, over classes of rows that are alike, and then
//! over rows. No query stands in it.
#![tactic(auto)]

mod avoiding;
mod class_clauses;
mod class_lists;
mod classing;
mod decision;
mod finding;
mod first_look;
mod judging;
mod listed_classes;
mod listed_rows;
mod quotient;
mod room;
mod scope;
mod second_look;
mod singles;

pub use decision::{Decided, with_outcome};
pub use judging::{Judged, judge};
pub use room::Room;
pub use scope::Scope;
