//! The laws of ranges, over the definitions alone. Each is what its function ensures.

ghost use Rattle.range_ask.specs.Laws.{EndsAreOne, PicksAreRepairs, TestsAreMet};

/// The repairs of a table are the lists with one row of each block.
pub fn picks_are_repairs()
    ensures { PicksAreRepairs }
{}

/// The tests as a truth value are the relation by which rows are deleted.
pub fn tests_are_met()
    ensures { TestsAreMet }
{}

/// A range has one least and one greatest end.
pub fn ends_are_one()
    ensures { EndsAreOne }
{}
