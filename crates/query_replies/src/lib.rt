//! What is told of queries and of the parts of unions without a look at rows: the class and its attacks, and the plan in SQL; and the
//! lines of the rows that a repair keeps.
#![tactic(auto)]

mod classes;
mod kept;
mod names;
mod shares;
mod texts;
mod unions;

pub use classes::class_of_query;
pub use kept::kept_rows;
pub use names::name_of;
pub use texts::sql_of_query;
pub use unions::{class_of_parts, sql_of_parts};
