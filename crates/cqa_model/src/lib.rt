//! Schemas and queries, with the definitions of certain answers under primary keys and their laws.
#![tactic(auto)]

pub mod laws;
mod limits;
mod naming;
mod query;
mod schema;
mod variable_class;

pub use limits::{
    COLUMN_NUMBERS, LONGEST_INPUT, LONGEST_NAME, MOST_ANSWER_COLUMNS, MOST_ATOMS, MOST_COLUMNS,
    MOST_ROWS, MOST_SELECTS, MOST_TABLES,
};
pub use naming::variables;
pub use query::{Atom, ColRef, Cond, Op, Plan, Query, RowId};
pub use schema::{Column, Schema};
pub use variable_class::Variables;
