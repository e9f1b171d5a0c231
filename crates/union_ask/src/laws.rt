//! The laws of unions, over the definitions alone. Each is what its function ensures.

ghost use Rattle.union_ask.specs.Laws.{AloneDecides, ApartDecide, CandidatesDecide, ModelRejects, PossibleIsCandidateIn, UnionModelRejects, UnionsDecide};

/// A row that is a candidate of one part alone is certain for the union exactly where it is certain for this part.
pub fn alone_decides()
    ensures { AloneDecides }
{}

/// Some repair holds a witness of the row for some part exactly where the row is a candidate of some part.
pub fn possible_is_candidate_in()
    ensures { PossibleIsCandidateIn }
{}

/// Where no table that isn't strict is in two of the parts of which a row is a candidate, the row is certain for the union exactly
/// where it is certain for a part.
pub fn candidates_decide()
    ensures { CandidatesDecide }
{}

/// A row that is certain for a part is certain for the union, and where no table that isn't strict is in two parts, no other row is.
pub fn apart_decide()
    ensures { ApartDecide }
{}

/// A row is certain for a union exactly where no assignment satisfies its formula.
pub fn unions_decide()
    ensures { UnionsDecide }
{}

/// A repair of the union's tables whose rows are the picks of a model of a row's formula holds no witness of the row.
pub fn union_model_rejects()
    ensures { UnionModelRejects }
{}

/// Over a model of a row's formula for one query, the repair that keeps of each block the first row that is true, or else its first
/// row, holds no witness of the row.
pub fn model_rejects()
    ensures { ModelRejects }
{}
