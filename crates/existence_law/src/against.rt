//! What stands against a row that isn't certain, over the definitions alone. The law is what its function ensures, so the build
//! proves it.

ghost use Rattle.existence_law.specs.Against.{RowsAgainstExist};

/// A row that isn't certain has rows that are kept against it, of which none can be left out.
pub fn rows_against_exist()
    ensures { RowsAgainstExist }
{}
