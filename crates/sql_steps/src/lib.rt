//! What the steps of an SQL query are made of, for one atom: its rows that fit what is known of variables, its blocks as groups,
//! and the parts that hang on it, joined to either.
#![tactic(auto)]

mod children;
mod fitting;
mod groups;
mod lists;
mod part;
mod selects;
mod shape;

pub use children::{Joined, append_beside, are_single, hanging, joined_parts};
pub use fitting::{Fitting, Known, cell_of, cells_of};
pub use groups::{block_group, context_group};
pub use lists::{ascending, covers, has, joined, meets, within, without};
pub use part::Part;
pub use selects::{RowFit, append_listed, append_on, keyed, row_fit, rows_of_atom};
pub use shape::{Shape, shape_of};
