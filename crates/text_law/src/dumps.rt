//! The laws of dumps, over the definitions of the machine alone. Each is what its function ensures, so the build proves it.

ghost use Rattle.text_law.specs.Again.{DumpAnswersAgain, DumpRunsAgain};

/// A dump, run from a state without tables, is refused nowhere and makes the same tables.
pub fn dump_runs_again()
    ensures { DumpRunsAgain }
{}

/// A call whose input is a dump ends without a refusal, and with the same tables.
pub fn dump_answers_again()
    ensures { DumpAnswersAgain }
{}
