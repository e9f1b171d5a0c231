//! The statements on a row of a query or a union, each in a room of its own: why it is certain or why it isn't, what is
//! kept against it, a certificate.
#![tactic(auto)]

pub mod against;
pub mod explain;
pub mod explain_union;
pub mod prove;
