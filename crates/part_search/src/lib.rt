//! The witnesses of rows for the parts of a union over a database, over a frame that numbers the rows of their tables: how they are
//! looked up, part by part, the formula of a row, what the solver finds out of one, and what is found out of one candidate. A
//! single query is a union of one part.
#![tactic(auto)]

mod bound_parts;
mod deciding;
mod encoding;
mod gathering;
mod judging;
mod laws;
mod lookups;
mod scope;
mod searched;
mod spoken;

pub use bound_parts::BoundParts;
pub use deciding::solved_by_groups;
pub use encoding::encode_parts;
pub use gathering::{gather, gathered};
pub use judging::{Verdict, judge_lists};
pub use laws::{certain_is_forced, closed_by_parts, names_of_parts};
pub use lookups::{bounds_of, lookups_of};
pub use scope::scope_over;
pub use searched::{Searched, Stop};
