//! The laws of values, over the definitions alone. Each is what its function ensures.

ghost use Rattle.choice_values.specs.Laws.{HoldsIsHoldsWhole};

/// What is summed up over is whether a choice holds a list whole.
pub fn holds_is_holds_whole()
    ensures { HoldsIsHoldsWhole }
{}
