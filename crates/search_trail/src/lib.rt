//! The trail of a search: the literals that are true, in their order and with the clause that forced each; what a conflict in it
//! teaches; and how the search goes on, on which no answer depends: which variable is decided next, when it starts anew, which
//! learnt clauses it forgets.
#![tactic(auto)]

mod analysis;
mod implications;
pub mod order;
pub mod restart;
mod seen;
mod shorten;
mod trail;
pub mod usage;

pub use analysis::LearntClause;
pub use implications::Implications;
pub use seen::SeenBuffer;
pub use trail::{Entry, cut, enqueue, lit_at, literals_at, truth_of, value_at};
