//! The laws of pairs, over the definitions alone.
//! Each is what its function ensures, so the build proves it.

ghost use Rattle.weak_pairs.specs.Outcomes.{PairDecided, PairOutcome};
ghost use Rattle.weak_pairs.specs.Pairs.{PairLaws, PairStructure};

/// How the rows of a pair meet.
pub fn pair_structure()
    ensures { PairStructure }
{}

/// Blocked rows are certain, and chosen rows reject.
pub fn pair_laws()
    ensures { PairLaws }
{}

/// Blocked rows are certain, and the rows taken reject; rows with one list of shared values have one edge.
pub fn pair_outcome()
    ensures { PairOutcome }
{}

/// What is decided of numbered rows holds of the row asked for.
pub fn pair_decided()
    ensures { PairDecided }
{}
