//! That the machine always goes on: laws over its definitions alone, and of a session's state by them. Each is what its function
//! ensures, so the build proves it.

ghost use Rattle.command_shell.specs.Laws.{StepsGoOn, RunsGoOn, InputsAreRun, StatesGoOn, WrittenBeginsRuns};
ghost use Rattle.command_shell.specs.GoingOn.{GoesOnFrom};

use crate::Session;
use existence_law::unions::{union_answers_exist, union_reasons_exist};
use reading_law::inputs::inputs_are_cut;
use union_ask::candidates_decide;

/// From each valid state, each text with each block has a step to a valid state.
pub fn steps_go_on()
    ensures { StepsGoOn }
{
    union_answers_exist();
    union_reasons_exist();
    candidates_decide();
}

/// From each valid state, some statements have a run to a valid state.
pub fn runs_go_on()
    ensures { RunsGoOn }
{
    steps_go_on();
}

/// From each valid state, each input has a run over it to a valid state.
pub fn inputs_are_run()
    ensures { InputsAreRun }
{
    runs_go_on();
    inputs_are_cut();
}

/// From each valid state, the machine goes on to the end of the input of which some statements have led to it.
pub fn states_go_on()
    ensures { StatesGoOn }
{
    runs_go_on();
    inputs_are_cut();
}

/// What was written where answers were cut short begins the text of a run over all bytes that came.
pub fn written_begins_runs()
    ensures { WrittenBeginsRuns }
{
    states_go_on();
}

/// For proofs alone: from the state of a session, which is a valid one, the machine goes on to the end of an input.
pub(crate) fn goes_on(session: &Session)
    ensures { GoesOnFrom session.now }
{
    states_go_on();
    session.database();
}
