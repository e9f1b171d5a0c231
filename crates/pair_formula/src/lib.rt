//! The formulas of rows of pairs: of a row one over the blocks of which all rows are in witnesses, by which the certain rows of a
//! query are found, or the disputed ones, and of a certain row the whole one with its refutation; and why a row of a pair is certain, or isn't.
#![tactic(auto)]

mod certain;
mod formula;
mod full;
mod proving;
mod reason;

pub use certain::rows_by_pairs;
pub use pair_answers::PairQuery;
pub use proving::{Refuted, refute_row};
pub use reason::reason_by_pair;
