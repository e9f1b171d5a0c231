//! `ask`: the certain rows of a query.

ghost use Rattle.query_resolve.specs.Checks.{query_fault};
ghost use Rattle.session_state.specs.Replying.{Replies, IsReplyOutcome};
ghost use Rattle.query_statements.specs.Ask.{AnswersCertain};

use crate::sides::tell_side;
use cqa_value::Fail;
use refusals::Refusal;
use reply_text::Reply;
use row_answers::Side;
use session_state::SessionState;
use spj_syntax::Select;
use std::alloc::Global;

/// Answers the certain rows of a query.
///
/// # Errors
///
/// The first check of the query that fails. Where it needs search, also `WitnessLimit` at the first candidate
/// with too many witnesses, and `Spent` at a candidate before it for which the budget doesn't suffice.
pub fn ask(
    alloc: Global,
    session: &mut SessionState,
    select: &Select,
) -> Result<Reply, Fail<Refusal>>
    ensures { IsReplyOutcome result session.old (Replies (query_fault session.old.tables select.now) session.old (AnswersCertain session.old select.now)) session.new }
{
    tell_side(alloc, session, select, Side::Certain)
}
