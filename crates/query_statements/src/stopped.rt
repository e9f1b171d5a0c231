//! The refusal of the row at which a search for all rows stopped.

ghost use Rattle.query_statements.specs.Stopped.{RefusesStop};

use part_search::Stop;
use refusals::Refusal;
use repair_back::Untold;
use session_state::{SessionState, refusal_of};

/// The refusal of the row at which a search for all rows stopped.
pub fn refuse_stop(session: &mut SessionState, stop: Stop) -> Refusal
    ensures { RefusesStop session.old stop result session.new }
{
    match stop {
        Stop::Over(row) => refusal_of(session, row, Untold::Over),
        Stop::Spent { row, cnf, log } => refusal_of(session, row, Untold::Spent { cnf, log }),
    }
}
