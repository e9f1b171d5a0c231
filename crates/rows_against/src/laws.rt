//! The laws of rows that are kept against a row, over the definitions alone.
//! Each is what its function ensures.

ghost use Rattle.rows_against.specs.Laws.{AgainstIsUncertain, RowsExcludeByHits};

/// Stored rows of different blocks exclude a row exactly where they hit each of its witnesses.
pub fn rows_exclude_by_hits()
    ensures { RowsExcludeByHits }
{}

/// A row isn't certain where rows are kept against it.
pub fn against_is_uncertain()
    ensures { AgainstIsUncertain }
{}
