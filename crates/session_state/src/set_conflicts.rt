//! `set conflicts`: how many conflicts a search may take.

ghost use Rattle.std.specs.Prelude.{None};
ghost use Rattle.session_state.specs.Replying.{Replies, IsReplyOutcome};
ghost use Rattle.session_state.specs.SetConflicts.{SetsConflicts};

use crate::state::SessionState;
use cqa_value::Fail;
use refusals::Refusal;
use reply_text::Reply;

/// Sets the budget of the searches that follow.
pub fn set_conflicts(session: &mut SessionState, conflicts: u32) -> Result<Reply, Fail<Refusal>>
    ensures { IsReplyOutcome result session.old (Replies None session.old (SetsConflicts session.old conflicts)) session.new }
{
    session.set_budget(conflicts);
    Ok(Reply::Conflicts(conflicts))
}
