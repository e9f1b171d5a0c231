//! The laws that what is told exists: outcomes of formulas, what is told of a query and of a union, what stands against a row,
//! the ranges of aggregates, and what is replied to groups. No code.
#![tactic(auto)]

pub mod against;
pub mod budgets;
pub mod groups;
pub mod queries;
pub mod ranges;
pub mod unions;
