//! The laws of what is read. Each input has a cut. Each text has tokens or a fault, its tokens are a statement or have a fault, and
//! a statement has a tree, whose values can stand in a state; and it says one thing: it is one statement, one order and one block
//! at most. Names of which no check fails are resolved: those of schemas, keys, tests, goals, groups, queries, unions and ranges.
//! Each block of CSV holds rows, or has a first record that is no row. No code.
#![tactic(auto)]

pub mod csv_blocks;
pub mod inputs;
pub mod names;
pub mod texts;
