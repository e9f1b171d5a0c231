//! The limits of inputs, schemas, queries and databases. A definition or a clause that needs one cites it by its name.

pub use cqa_value::MOST_COLUMNS;

/// The most bytes of an input, and so of each text in it.
pub const LONGEST_INPUT: usize = 268_435_456;

/// The most tables of a database.
pub const MOST_TABLES: u32 = 64;

/// The most rows that all tables of a database have together.
pub const MOST_ROWS: usize = 1_000_000;

/// The most bytes of a name of a table or a column.
pub const LONGEST_NAME: usize = 64;

/// The most atoms of a query.
pub const MOST_ATOMS: u32 = 12;

/// The most parts of a union of queries.
pub const MOST_SELECTS: usize = 8;

/// The most answer columns of a query.
pub const MOST_ANSWER_COLUMNS: usize = 192;

/// How many columns the atoms of a query have at most, which is `MOST_ATOMS` times `MOST_COLUMNS`: each has a number
/// below this.
pub const COLUMN_NUMBERS: usize = 192;
