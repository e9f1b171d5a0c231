//! The laws of the lists of witnesses of parts, over the definitions alone. Each is what its function ensures.

ghost use Rattle.part_search.specs.Laws.{CertainIsForced, ClosedByParts, NamesOfParts};

/// What stands in the lists of parts is exactly the names of their witnesses.
pub fn names_of_parts()
    ensures { NamesOfParts }
{}

/// A row is certain for a union exactly where every repair keeps one of its witnesses' lists whole.
pub fn certain_is_forced()
    ensures { CertainIsForced }
{}

/// The lists of a union are closed under exchange for rows that agree in the columns that are spoken of.
pub fn closed_by_parts()
    ensures { ClosedByParts }
{}
