//! The law of parts that are apart, over the definitions alone. It is what its function ensures.

ghost use Rattle.query_strategy.specs.Apart.{ApartByIndex};

/// Where parts that fit a database are apart, two of their atoms over one table are of one part or the table is strict.
pub fn apart_by_index()
    ensures { ApartByIndex }
{}
