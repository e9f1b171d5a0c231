//! Plans over a database: the rows for which a plan holds, which are the certain rows of a query that has one, and the block by
//! which a plan holds for a row.
#![tactic(auto)]

mod block;
mod certain;
mod enough;
mod giving;
mod holding;
mod links;
mod notes;
mod paths;
mod planned;
mod ways;

pub use block::{block_of, first_block};
pub use certain::answers;
pub use holding::holds;
pub use paths::paths_of;
pub use planned::certain_by_plan;
pub use ways::ways_of;
