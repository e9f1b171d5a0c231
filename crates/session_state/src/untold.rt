//! The refusal of a row of which nothing is told: what `explain` and `against` refuse, and what a search for all rows stops at.

ghost use Rattle.cqa_value.specs.declared.memory.Fail.TheVariants.{Refused};
ghost use Rattle.session_state.specs.Untold.{RefusesRow};

use crate::state::SessionState;
use cqa_value::{Fail, NoMemory, Row};
use refusals::Refusal;
use repair_back::Untold;
use reply_text::Proof;
use std::alloc::Global;

/// The refusal of a row. Where the budget is used up, the row's formula is kept with the spent log.
pub fn refusal_of(session: &mut SessionState, row: Row, stop: Untold) -> Refusal
    ensures { RefusesRow session.old row stop (Refused result) session.new }
{
    match stop {
        Untold::Over => Refusal::WitnessLimit { row },
        Untold::Spent { cnf, log } => {
            let conflicts = session.budget();
            session.keep_log(Proof { cnf, log });
            Refusal::Spent { row, conflicts }
        }
    }
}

/// The refusal of a row that stays with its caller, or want of memory.
pub fn refuse_row(
    alloc: Global,
    session: &mut SessionState,
    row: &Row,
    stop: Untold,
) -> Fail<Refusal>
    ensures { RefusesRow session.old row.now stop result session.new }
{
    match row.copy(alloc) {
        Ok(row) => Fail::Refused(refusal_of(session, row, stop)),
        Err(NoMemory) => {
            drop(stop);
            Fail::NoMemory
        }
    }
}
