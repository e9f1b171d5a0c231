//! The laws of certain answers, over the definitions alone. Each is what its function ensures.

ghost use Rattle.cqa_model.specs.Laws.{
  AttacksStay,
  CertainOrRejected,
  CertainOverOne,
  EliminationIsExact,
  FormulaIsExact,
  KeysByBlock,
  KeysGo,
  NoAttackComes,
  PlanOrCycle,
  PossibleIsCandidate,
  RewritingIsExact,
  StrictAttacksNothing,
  WitnessesAgree,
  WitnessesStay,
};

/// Each elimination order of a query holds exactly where the row is certain.
pub fn elimination_is_exact()
    ensures { EliminationIsExact }
{}

/// The plan of a query holds exactly where the row is certain.
pub fn rewriting_is_exact()
    ensures { RewritingIsExact }
{}

/// A query has a plan exactly where its attacks have no cycle, and at most one; where they have a cycle, it has no
/// elimination order either. Which of the two it is is decided.
pub fn plan_or_cycle()
    ensures { PlanOrCycle }
{}

/// An atom of a strict table attacks no other.
pub fn strict_attacks_nothing()
    ensures { StrictAttacksNothing }
{}

/// Each row of a query is certain, or some repair holds no witness of it.
pub fn certain_or_rejected()
    ensures { CertainOrRejected }
{}

/// A row is certain exactly where no assignment satisfies its formula.
pub fn formula_is_exact()
    ensures { FormulaIsExact }
{}

/// Over one table a row is certain exactly where some block has only rows that fit it.
pub fn certain_over_one()
    ensures { CertainOverOne }
{}

/// The possible rows are exactly the candidates, and every certain row is one.
pub fn possible_is_candidate()
    ensures { PossibleIsCandidate }
{}

/// Agreement: where one row of a witness is exchanged for another of its block, a witness that uses the new one agrees with
/// it on what the keys of its atom determine.
pub fn witnesses_agree()
    ensures { WitnessesAgree }
{}

/// Exchange: where a row of a witness is exchanged, each witness afterwards has one before with the same row of an atom that
/// the row's atom doesn't attack, and one with the same key of the row's atom.
pub fn witnesses_stay()
    ensures { WitnessesStay }
{}

/// Reification: where no atom attacks another, a key of it that some repair hasn't can be taken from a repair, and no key
/// comes; and where every repair holds a witness, one key is a key of every repair.
pub fn keys_go()
    ensures { KeysGo }
{}

/// Every repair holds a witness with a key exactly where its block has only rows that fit, with each of which taken every
/// repair holds one.
pub fn keys_by_block()
    ensures { KeysByBlock }
{}

/// The view after an atom has no attack that the view before it had not.
pub fn no_attack_comes()
    ensures { NoAttackComes }
{}

/// Where no atom attacks another, the view after it has every attack between others that the view before it had.
pub fn attacks_stay()
    ensures { AttacksStay }
{}
