//! The rows taken along a plan: whether a further row fits them, what they tell of it before it is looked for, to which rows
//! others of later atoms lead, and what was decided of the rests of the plan.
#![tactic(auto)]

mod course;
mod fitting;
mod grouped;
mod joined;
mod known;
mod links;
mod look;
mod memo;
mod place_set;
mod places;
mod reached;
mod setting;
mod settled;
mod shared;
mod steps;
mod taken_rows;
mod wanted;

pub use course::Course;
pub use fitting::{fits, may_fit, suits};
pub use grouped::grouped_along;
pub use joined::JoinedColumns;
pub use known::known_values;
pub use links::Link;
pub use look::Look;
pub use memo::{Candidates, Memo};
pub use places::Places;
pub use reached::reached_places;
pub use setting::Setting;
pub use settled::are_settled;
pub use shared::{is_told, shared_columns, shared_or_none};
pub use steps::{Rest, Step};
pub use taken_rows::{Taken, answer_of};
pub use wanted::Wanted;
