//! What exists of a union: its answers, the formula of a row, a repair without a witness, a table that two parts share; over the
//! definitions alone. Each law is what its function ensures, so the build proves it.

ghost use Rattle.existence_law.specs.UnionAnswers.{UnionAnswersExist, UnionFirstOverExists, UnionRowsAreDecided};
ghost use Rattle.existence_law.specs.UnionFormulas.{UnionFormulasExist};
ghost use Rattle.existence_law.specs.UnionParts.{PartsAreDecided};
ghost use Rattle.existence_law.specs.UnionReasons.{UnionReasonsExist, UnionRejectionsExist};

use union_ask::{possible_is_candidate_in, unions_decide};

/// Whether a row is certain for a union is decided, and so is whether it has too many witnesses.
pub fn union_rows_are_decided()
    ensures { UnionRowsAreDecided }
{}

/// Each union whose parts fit a database has a certain and a possible answer.
pub fn union_answers_exist()
    ensures { UnionAnswersExist }
{
    possible_is_candidate_in();
}

/// No candidate of a union has too many witnesses, or one that has is the first.
pub fn union_first_over_exists()
    ensures { UnionFirstOverExists }
{}

/// A row has a formula for a union, whose literals are of its own variables.
pub fn union_formulas_exist()
    ensures { UnionFormulasExist }
{}

/// A row that isn't certain for a union has a repair without a witness, told by the rows that it had to choose.
pub fn union_rejections_exist()
    ensures { UnionRejectionsExist }
{}

/// A row has a reason within a budget, or what keeps it from being told.
pub fn union_reasons_exist()
    ensures { UnionReasonsExist }
{
    possible_is_candidate_in();
    unions_decide();
}

/// The parts of a union are apart, or a first table that isn't strict stands in two of them.
pub fn parts_are_decided()
    ensures { PartsAreDecided }
{}
