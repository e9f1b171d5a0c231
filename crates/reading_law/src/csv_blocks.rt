//! What blocks of CSV hold, over the definitions alone. The law is what its function ensures, so the build proves it.

ghost use Rattle.reading_law.specs.CsvBlocks.{BlocksAreRead};

/// A block holds rows, or has a first record that is no row.
pub fn blocks_are_read()
    ensures { BlocksAreRead }
{}
