//! Lists of names of rows, of which a repair may keep none whole: the formula that decides whether every repair keeps one, with
//! its variables numbered from 1, and its laws. No query stands in it, so it serves one query and unions of queries.
#![tactic(auto)]

mod clauses;
mod formula;
mod frame;
pub mod laws;
mod lists_over;
pub mod loosening;
pub mod numbering;
mod places;
mod relevant;
pub mod run;
pub mod span;

pub use clauses::{add_blocks, fill_block, fill_list};
pub use formula::{Encoded, encode, formula_over};
pub use frame::{Frame, frame_of, rising_frame};
pub use lists_over::RowLists;
pub use relevant::relevant_blocks;
