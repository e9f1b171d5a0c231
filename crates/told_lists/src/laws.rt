//! The laws of lists that are told by numbers, over the definitions alone. Each is what its function ensures.

ghost use Rattle.told_lists.specs.Laws.{JudgedIsCertain, JudgedIsCertainIn, ToldDecide, VerdictsHold};

/// Every repair keeps a list whole exactly where each choice of a row of each told block holds one of the told lists whole.
pub fn told_decide()
    ensures { ToldDecide }
{}

/// A row is certain for a union exactly where each choice of told blocks holds whole one of the lists of its witnesses, as told.
pub fn judged_is_certain_in()
    ensures { JudgedIsCertainIn }
{}

/// A row is certain for a query exactly where each choice of told blocks holds whole one of the lists of its witnesses, as told.
pub fn judged_is_certain()
    ensures { JudgedIsCertain }
{}

/// A row whose told group is judged certain is certain for the union, and one whose group is judged open isn't.
pub fn verdicts_hold()
    ensures { VerdictsHold }
{}
