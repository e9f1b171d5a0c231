//! The laws of logs, over the definitions alone. Each is what its function ensures.

ghost use Rattle.cnf_form.specs.Logs.{AdditionsFollow, RefutedIsUnsatisfiable};
ghost use Rattle.cnf_form.specs.Spent.{SpentLogsEnd};

/// An assignment that satisfies a formula satisfies each clause that a passing log adds.
pub fn additions_follow()
    ensures { AdditionsFollow }
{}

/// No assignment satisfies a formula that a log refutes.
pub fn refuted_is_unsatisfiable()
    ensures { RefutedIsUnsatisfiable }
{}

/// A formula over v variables has no spent log for a budget of 3^v clauses or more.
pub fn spent_logs_end()
    ensures { SpentLogsEnd }
{}
