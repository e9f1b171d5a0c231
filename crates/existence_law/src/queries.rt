//! What exists of a query: answers, witnesses by name, formulas, refutations, repairs, first blocks, the first candidate over the
//! limit; and that attacks and methods are decided. Over the definitions alone: each law is what its function ensures, so the build
//! proves it.

ghost use Rattle.existence_law.specs.Answers.{AnswersExist, RowsAreDecided};
ghost use Rattle.existence_law.specs.Blocks.{FirstBlocksExist};
ghost use Rattle.existence_law.specs.Formulas.{CertainIsRefuted, FormulasExist, WitnessesAreListed};
ghost use Rattle.existence_law.specs.Graphs.{AttacksAreDecided, MethodsAreDecided};
ghost use Rattle.existence_law.specs.Limits.{FirstOverExists};
ghost use Rattle.existence_law.specs.Refutations.{RefutationsExist};
ghost use Rattle.existence_law.specs.Rejections.{KeptRowsHaveNames, RejectionsExist};

/// Whether a row is certain is decided, and so is whether it has a witness.
pub fn rows_are_decided()
    ensures { RowsAreDecided }
{}

/// Each query that fits a database has a certain and a possible answer.
pub fn answers_exist()
    ensures { AnswersExist }
{}

/// All witnesses of a row have names, which are a list, and whether they are too many is decided.
pub fn witnesses_are_listed()
    ensures { WitnessesAreListed }
{}

/// A row has a formula, with numbered clauses.
pub fn formulas_exist()
    ensures { FormulasExist }
{}

/// A formula that no assignment satisfies has a refutation.
pub fn refutations_exist()
    ensures { RefutationsExist }
{}

/// The formula of a certain row has a refutation.
pub fn certain_is_refuted()
    ensures { CertainIsRefuted }
{}

/// The rows that a repair keeps of a query's tables have names.
pub fn kept_rows_have_names()
    ensures { KeptRowsHaveNames }
{}

/// A row that isn't certain has a repair without a witness, told by the rows that it had to choose.
pub fn rejections_exist()
    ensures { RejectionsExist }
{}

/// Which atoms of a query attack which is decided, and so is whether they do so weakly, and whether a cycle has a strong attack.
pub fn attacks_are_decided()
    ensures { AttacksAreDecided }
{}

/// Whether a query is a pair is decided, and so is whether it needs search.
pub fn methods_are_decided()
    ensures { MethodsAreDecided }
{}

/// Where a row is certain for a query that has a plan, there is a first block by which the plan holds.
pub fn first_blocks_exist()
    ensures { FirstBlocksExist }
{}

/// No candidate of a query has too many witnesses, or one that has is the first.
pub fn first_over_exists()
    ensures { FirstOverExists }
{}
