//! `disputed`: the rows of a query that are possible and not certain.

ghost use Rattle.query_resolve.specs.Checks.{query_fault};
ghost use Rattle.session_state.specs.Replying.{Replies, IsReplyOutcome};
ghost use Rattle.query_statements.specs.Disputed.{AnswersDisputed};

use crate::sides::tell_side;
use cqa_value::Fail;
use refusals::Refusal;
use reply_text::Reply;
use row_answers::Side;
use session_state::SessionState;
use spj_syntax::Select;
use std::alloc::Global;

/// Answers the disputed rows of a query.
///
/// # Errors
///
/// As for an `ask` of the same query: the first check of the query that fails. Where it needs search, also `WitnessLimit` at the
/// first candidate with too many witnesses, and `Spent` at a candidate before it for which the budget doesn't suffice.
pub fn disputed(
    alloc: Global,
    session: &mut SessionState,
    select: &Select,
) -> Result<Reply, Fail<Refusal>>
    ensures { IsReplyOutcome result session.old (Replies (query_fault session.old.tables select.now) session.old (AnswersDisputed session.old select.now)) session.new }
{
    tell_side(alloc, session, select, Side::Disputed)
}
