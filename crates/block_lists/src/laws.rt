//! The laws of lists of rows of blocks, over the definitions alone. Each is what its function ensures.

ghost use Rattle.block_lists.specs.Laws.{EachGroupDecides, GroupDecides, GroupFormulaIsWritable, PicksAvoid, WiderMayBeLeftOut};

/// Each choice holds some list whole exactly where no assignment satisfies the formula.
pub fn group_decides()
    ensures { GroupDecides }
{}

/// The first true rows of a model of the formula are a choice that holds no list whole.
pub fn picks_avoid()
    ensures { PicksAvoid }
{}

/// The formula of a group can be written, so that it is read again.
pub fn group_formula_is_writable()
    ensures { GroupFormulaIsWritable }
{}

/// Each choice holds some list whole, or some choice holds none.
pub fn each_group_decides()
    ensures { EachGroupDecides }
{}

/// A list that has all rows of another may be left out.
pub fn wider_may_be_left_out()
    ensures { WiderMayBeLeftOut }
{}
