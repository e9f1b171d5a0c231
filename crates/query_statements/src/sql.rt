//! `sql`: the certain rows of a query that has a plan, as one query in SQL.

ghost use Rattle.query_resolve.specs.Checks.{query_fault};
ghost use Rattle.session_state.specs.Replying.{Replies, IsReplyOutcome};
ghost use Rattle.query_statements.specs.Sql.{WritesSql};

use cqa_value::Fail;
use query_replies::sql_of_query;
use query_resolve::resolve;
use refusals::Refusal;
use reply_text::Reply;
use session_state::SessionState;
use spj_syntax::Select;
use std::alloc::Global;
use table_blocks::Bound;

/// Answers a query's plan in SQL, or that it has none.
///
/// # Errors
///
/// The first check of the query that fails.
pub fn sql(alloc: Global, session: &SessionState, select: &Select) -> Result<Reply, Fail<Refusal>>
    ensures { IsReplyOutcome result session.now (Replies (query_fault session.now.tables select.now) session.now (WritesSql session.now select.now)) session.now }
{
    let database = session.database();
    let query = resolve(alloc, database, select)?;
    let bound = Bound::new(database, &query);
    let found = sql_of_query(alloc, &bound, select.tables.as_slice());
    drop(query);
    match found? {
        Some(text) => Ok(Reply::Sql(text)),
        None => Ok(Reply::NoPlan),
    }
}
