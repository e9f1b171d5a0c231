//! `range`: the least and the greatest value that an aggregate has in a repair of a table, over all its rows or for each group.

ghost use Rattle.std.specs.Prelude.{◌≡◌, ◌<◌, ◌≤◌, IfOk, length, map};
ghost use Rattle.cqa_model.specs.Database.{IsDatabase};
ghost use Rattle.refusals.specs.Refusal.{Checked};
ghost use Rattle.spj_syntax.specs.Limits.{most_items};
ghost use Rattle.query_resolve.specs.Names.{columns_at};
ghost use Rattle.query_resolve.specs.Checks.{group_fault};
ghost use Rattle.table_blocks.specs.Tables.{AreStored};
ghost use Rattle.session_state.specs.Replying.{Replies, IsReplyOutcome};
ghost use Rattle.query_replies.specs.Kept.{kept_line};
ghost use Rattle.query_statements.specs.Range.{range_fault, group_line, TellsEnds, TellsGroups, TellsBy, TellsRange};

use aggregate_range::Goal;
use cqa_value::{Fail, Items, Name, NoMemory};
use query_replies::kept_rows;
use query_resolve::{resolve_goal, resolve_group, resolve_tests};
use range_ask::{Ends, Group, ends_of, groups_of};
use refusals::Refusal;
use reply_text::{GroupEnds, Reply};
use session_state::SessionState;
use session_state::table_place::table_place;
use spj_syntax::{RawGoal, RawTest};
use std::alloc::Global;
use table_blocks::{ColumnTest, Database};

/// The reply that tells both ends, each with the lines of the rows that a repair which has it chose.
pub(crate) fn told(alloc: Global, db: &Database, ends: Ends) -> Result<Reply, NoMemory>
    requires low { AreStored db.now ends.low }
    requires high { AreStored db.now ends.high }
    ensures { IfOk result (λ reply. reply ≡ Reply.Range ends.least (map (kept_line db.now) ends.low) ends.greatest (map (kept_line db.now) ends.high)) }
{
    let low = kept_rows(alloc, db, ends.low.as_slice())?;
    let high = kept_rows(alloc, db, ends.high.as_slice())?;
    Ok(Reply::Range {
        least: ends.least,
        low,
        greatest: ends.greatest,
        high,
    })
}

/// Tells both ends of an aggregate over the rows of a table for which all tests hold.
fn tell(
    alloc: Global,
    db: &Database,
    table: u32,
    goal: &Goal,
    tests: &[ColumnTest],
) -> Result<Reply, NoMemory>
    requires database { IsDatabase db.now }
    requires there { table < length db.now }
    ensures { IfOk result (λ reply. TellsEnds db.now table goal.now tests.now reply) }
{
    let ends = ends_of(alloc, db, table, goal, tests)?;
    told(alloc, db, ends)
}

/// The lines of groups.
pub(crate) fn group_lines(alloc: Global, groups: Items<Group>) -> Result<Items<GroupEnds>, NoMemory>
    ensures { IfOk result (λ lines. lines ≡ map group_line groups) }
{
    let groups = groups.into_vec().into_iter();
    let lines = groups.map(|group| GroupEnds {
        value: group.value,
        least: group.least,
        greatest: group.greatest,
    });
    Ok(Items::from_vec(lines.collect(alloc)?))
}

/// Tells both ends for each group: for each value that a row for which all tests hold has in a column.
fn tell_groups(
    alloc: Global,
    db: &Database,
    table: u32,
    goal: &Goal,
    tests: &[ColumnTest],
    col: u32,
) -> Result<Reply, NoMemory>
    requires { table < length db.now }
    ensures { IfOk result (λ reply. TellsGroups db.now table goal.now tests.now col reply) }
{
    let groups = groups_of(alloc, db, table, goal, tests, col)?;
    Ok(Reply::Groups(group_lines(alloc, groups)?))
}

/// Tells both ends over all rows, or for each group where the column by whose values rows are grouped is named and there.
fn tell_by(
    alloc: Global,
    db: &Database,
    table: u32,
    goal: &Goal,
    tests: &[ColumnTest],
    group: &Option<Name>,
) -> Result<Reply, Fail<Refusal>>
    requires database { IsDatabase db.now }
    requires there { table < length db.now }
    ensures { Checked result (group_fault (columns_at db.now table) group.now) (TellsBy db.now table goal.now tests.now group.now) }
{
    let col = resolve_group(alloc, db, table, group)?;
    match col {
        None => Ok(tell(alloc, db, table, goal, tests)?),
        Some(col) => Ok(tell_groups(alloc, db, table, goal, tests, col)?),
    }
}

/// Answers the least and the greatest value that an aggregate has in a repair of a table, each with a repair that has it, or both
/// values for each group of the table's rows.
///
/// # Errors
///
/// `UnknownTable`, or the first check of the goal, then of the tests, and then of the groups, that fails.
pub fn range(
    alloc: Global,
    session: &SessionState,
    name: &Name,
    goal: &RawGoal,
    tests: &[RawTest],
    group: &Option<Name>,
) -> Result<Reply, Fail<Refusal>>
    requires { length tests.now ≤ most_items }
    ensures { IsReplyOutcome result session.now (Replies (range_fault session.now.tables name.now goal.now tests.now group.now) session.now (TellsRange session.now name.now goal.now tests.now group.now)) session.now }
{
    let db = session.database();
    let table = table_place(alloc, db, name)?;
    let goal = resolve_goal(alloc, db, table, goal)?;
    let tests = resolve_tests(alloc, db, table, tests)?;
    let reply = tell_by(alloc, db, table, &goal, tests.as_slice(), group);
    drop(tests);
    reply
}
