//! `show log`: the log that was kept last, with its formula.

ghost use Rattle.std.specs.Prelude.{None};
ghost use Rattle.session_state.specs.Replying.{Replies, IsReplyOutcome};
ghost use Rattle.session_state.specs.ShowLog.{ShowsLog};

use crate::state::SessionState;
use cqa_value::Fail;
use refusals::Refusal;
use reply_text::Reply;
use std::alloc::Global;

/// Answers a copy of the log that was kept last, with its formula, or that there is none.
pub fn show_log(alloc: Global, session: &SessionState) -> Result<Reply, Fail<Refusal>>
    ensures { IsReplyOutcome result session.now (Replies None session.now (ShowsLog session.now)) session.now }
{
    match session.last_log() {
        Some(proof) => Ok(Reply::KeptLog(proof.copy(alloc)?)),
        None => Ok(Reply::NoLog),
    }
}
