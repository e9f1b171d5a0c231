//! Closures of variables under the dependencies of a query's atoms, over sets of a small fixed size.
//!
//! The functions of this level name the query's variables themselves. A caller with many of them makes a [`Named`].
#![tactic(auto)]

mod atom_set;
mod named;
mod set_by_query;
mod variable_set;
mod view;

pub use atom_set::AtomSet;
pub use named::Named;
pub use set_by_query::{closure, key_set, var_set};
pub use variable_set::VarSet;
pub use view::View;
