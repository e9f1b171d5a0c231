//! What a search within a budget comes to, over the definitions alone. The law is what its function ensures, so the build
//! proves it.

ghost use Rattle.existence_law.specs.Budgets.{BudgetsDecide};

/// A formula that no assignment satisfies has a refutation within a budget, or a spent log for it.
pub fn budgets_decide()
    ensures { BudgetsDecide }
{}
