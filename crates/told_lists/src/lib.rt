//! Lists of names of rows of a database, told by numbers of blocks and of rows in them: the laws of these, without code.
#![tactic(auto)]

pub mod laws;
