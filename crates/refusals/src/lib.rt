//! Why a statement is refused, and which of its faults a call answers.
#![tactic(auto)]

mod refusal;

pub use refusal::{LimitKind, Place, Refusal};
