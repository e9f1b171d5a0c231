//! Rows as CSV (RFC 4180): the rows that a block of records holds, and rows written as records that are read as the
//! same rows; and the script that makes a table with its rows, which is what `dump` answers.
#![tactic(auto)]

mod ends;
mod field;
mod laws;
mod reading;
mod record;
mod table;
mod writing;

pub use ends::row_has_end;
pub use laws::a_block_reads_in_one_way;
pub use reading::{BlockRows, read_rows};
pub use table::{append_create, append_table};
pub use writing::{append_block, write_rows};
