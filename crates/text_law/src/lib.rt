//! The laws of what is written and read again: a dump, run again, makes the same tables, and a certificate is verified. No code.
#![tactic(auto)]

pub mod certificates;
pub mod dumps;
