//! The laws of preferred rows, over the definitions alone. Each is what its function ensures.

ghost use Rattle.table_changes.specs.Laws.{PreferredRepairs, PreferringKeeps};

/// A repair of the rows of a table that tests prefer is a repair of all its rows: no block loses all of them.
pub fn preferred_repairs()
    ensures { PreferredRepairs }
{}

/// Where a table keeps the rows that tests prefer, each repair is one of the database before. So each row of a query that was
/// certain is certain, and each one that is possible was possible.
pub fn preferring_keeps()
    ensures { PreferringKeeps }
{}
