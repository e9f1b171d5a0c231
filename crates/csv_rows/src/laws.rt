//! A law on the definitions of blocks.

ghost use Rattle.csv_rows.specs.Blocks.{ReadsInOneWay};

/// A block holds at most one list of rows, it has at most one first record that is no row, and not both.
pub fn a_block_reads_in_one_way()
    ensures { ReadsInOneWay }
{}
