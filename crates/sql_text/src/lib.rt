//! SQL queries of named steps: their syntax, their meaning over tables, and their text.
#![tactic(auto)]

mod conditions;
mod groups;
mod names;
mod places;
mod shared;
mod syntax;
mod texts;
mod words;

pub use names::Names;
pub use syntax::{
    Alias, Body, Cell, Child, Cmp, Group, Listed, Select, Source, Sql, Step, StepKind, Within,
};
pub use texts::append_sql;
