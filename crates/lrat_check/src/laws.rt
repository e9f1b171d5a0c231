//! The laws of refused logs, over the definitions alone. Each is what its function ensures.

ghost use Rattle.std.specs.Prelude.{◌≡◌, List};
ghost use Rattle.cnf_form.specs.declared.formula.Cnf.{Cnf};
ghost use Rattle.cnf_form.specs.declared.log.Step.{Step};
ghost use Rattle.cnf_form.specs.Logs.{Refutes};
ghost use Rattle.lrat_check.specs.declared.fault.LogFault.{LogFault};
ghost use Rattle.lrat_check.specs.Failing.{Refused};

/// No log is a refutation and has a fault.
pub fn never_both()
    ensures { (cnf : Cnf) (steps : List Step) (fault : LogFault) → Refutes cnf steps → Refused cnf steps fault → ⊥ }
{}

/// A log has at most one fault.
pub fn one_fault()
    ensures { (cnf : Cnf) (steps : List Step) (a b : LogFault) → Refused cnf steps a → Refused cnf steps b → a ≡ b }
{}
