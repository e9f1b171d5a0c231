//! From a statement to the room that answers it.

ghost use Rattle.std.specs.Option.{option_copied};
ghost use Rattle.std.specs.Prelude.{Ok};
ghost use Rattle.spj_syntax.specs.Written.{IsSmall};
ghost use Rattle.query_resolve.specs.Checks.{query_fault};
ghost use Rattle.command_shell.specs.Machine.{Asks, Does};
ghost use Rattle.session_state.specs.Replying.{Replies, IsReplyOutcome};

use cqa_value::{Fail, Items};
use query_statements::ask::ask;
use query_statements::ask_union::ask_union;
use query_statements::classify::classify;
use query_statements::classify_union::classify_union;
use query_statements::disputed::disputed;
use query_statements::plan::plan;
use query_statements::possible::possible;
use query_statements::possible_union::possible_union;
use query_statements::range::range;
use query_statements::range_of_join::range_of_join;
use query_statements::sql::sql;
use query_statements::sql_union::sql_union;
use reason_statements::against::against;
use reason_statements::explain::explain;
use reason_statements::explain_union::explain_union;
use reason_statements::prove::prove;
use refusals::Refusal;
use reply_text::Reply;
use session_state::SessionState;
use session_state::alter::alter;
use session_state::copy::copy;
use session_state::create::create;
use session_state::delete::delete;
use session_state::dump::dump;
use session_state::insert::insert;
use session_state::prefer::prefer;
use session_state::set_conflicts::set_conflicts;
use session_state::show_conflicts::show_conflicts;
use session_state::show_log::show_log;
use session_state::show_tables::show_tables;
use spj_syntax::{Select, Statement, Verb};
use std::alloc::Global;
use std::mem;

/// Answers what is asked of a query.
fn asked(
    alloc: Global,
    session: &mut SessionState,
    verb: &Verb,
    select: &Select,
) -> Result<Reply, Fail<Refusal>>
    ensures { IsReplyOutcome result session.old (Replies (query_fault session.old.tables select.now) session.old (Asks session.old verb.now select.now)) session.new }
{
    match verb {
        Verb::Ask => ask(alloc, session, select),
        Verb::Possible => possible(alloc, session, select),
        Verb::Disputed => disputed(alloc, session, select),
        Verb::Classify => classify(alloc, session, select),
        Verb::Plan => plan(alloc, session, select),
        Verb::Sql => sql(alloc, session, select),
        Verb::Explain { row } => explain(alloc, session, row, select),
        Verb::Against { row } => against(alloc, session, row, select),
        Verb::Prove { row } => prove(alloc, session, row, select),
    }
}

/// Does what a statement says, with the block that follows it. The rows of an `insert` are taken out of it.
fn done(
    alloc: Global,
    session: &mut SessionState,
    statement: &mut Statement,
    block: Option<&[u8]>,
) -> Result<Reply, Fail<Refusal>>
    requires { IsSmall statement.old }
    ensures { IsReplyOutcome result session.old (Does session.old (Ok statement.old) (option_copied block.entry)) session.new }
{
    match statement {
        Statement::Create { schema } => create(alloc, session, schema),
        Statement::Alter { table, change } => alter(alloc, session, table, change),
        Statement::Insert { table, rows } => {
            let rows = mem::replace(rows, Items::new(alloc));
            insert(alloc, session, table, rows)
        }
        Statement::Delete { table, tests } => delete(alloc, session, table, tests.as_slice()),
        Statement::Prefer { table, tests } => prefer(alloc, session, table, tests.as_slice()),
        Statement::Copy { table } => copy(alloc, session, table, block),
        Statement::Range {
            goal,
            table,
            tests,
            group,
        } => range(alloc, session, table, goal, tests.as_slice(), group),
        Statement::RangeJoin { range } => range_of_join(alloc, session, range),
        Statement::Asking { verb, select } => asked(alloc, session, verb, select),
        Statement::AskUnion(selects) => ask_union(alloc, session, selects),
        Statement::PossibleUnion(selects) => possible_union(alloc, session, selects),
        Statement::ClassifyUnion(selects) => classify_union(alloc, session, selects),
        Statement::SqlUnion(selects) => sql_union(alloc, session, selects),
        Statement::ExplainUnion { row, selects } => explain_union(alloc, session, row, selects),
        Statement::SetConflicts(conflicts) => set_conflicts(session, *conflicts),
        Statement::ShowTables => show_tables(alloc, session),
        Statement::ShowConflicts => show_conflicts(alloc, session),
        Statement::Dump => dump(alloc, session),
        Statement::ShowLog => show_log(alloc, session),
    }
}

/// Does what a statement says, with the block that follows it.
///
/// # Errors
///
/// The first check of the statement that fails; nothing has changed then.
pub fn execute(
    alloc: Global,
    session: &mut SessionState,
    mut statement: Statement,
    block: Option<&[u8]>,
) -> Result<Reply, Fail<Refusal>>
    requires { IsSmall statement }
    ensures { IsReplyOutcome result session.old (Does session.old (Ok statement) (option_copied block.entry)) session.new }
{
    let reply = done(alloc, session, &mut statement, block);
    drop(statement);
    reply
}
