//! `range` over several tables: the least and the greatest value that an aggregate over the witnesses of a query has in a repair,
//! over all of them or for each group.

ghost use Rattle.std.specs.Prelude.{◌≡◌, ◌<◌, [], IfErr, IfOk, IfSome, length};
ghost use Rattle.cqa_model.specs.Query.{FitsDatabase};
ghost use Rattle.join_access.specs.Listing.{HasTooMany, IsOver};
ghost use Rattle.query_resolve.specs.Checks.{range_join_fault};
ghost use Rattle.range_join.specs.Worths.{AreOthersStrict};
ghost use Rattle.table_blocks.specs.Tables.{AreStored};
ghost use Rattle.session_state.specs.Replying.{Replies, IsReplyOutcome};
ghost use Rattle.query_statements.specs.RangeOfJoin.{AreChosenEnds, TellsJoin, TellsJoinBy, TellsJoinEnds, TellsJoinGroups, TellsRangeJoin};

use crate::range::{group_lines, told};
use cqa_model::ColRef;
use cqa_value::{Fail, NoMemory, Row};
use join_access::TooMany;
use query_resolve::{RangeQuery, resolve_range};
use range_ask::{Ends, Range};
use range_groups::join_groups;
use range_join::{Sought, join_range};
use refusals::Refusal;
use repair_back::{Repair, chosen};
use reply_text::Reply;
use session_state::SessionState;
use spj_syntax::RawRange;
use std::alloc::Global;
use table_blocks::{Bound, Database};

/// Both ends, each with the rows that had to be chosen alone.
fn chosen_ends(alloc: Global, db: &Database, range: Range) -> Result<Ends, NoMemory>
    requires low { AreStored db.now range.low }
    requires high { AreStored db.now range.high }
    ensures { IfOk result (AreChosenEnds db.now range) }
{
    let low = chosen(alloc, db, Repair { kept: range.low })?;
    let high = chosen(alloc, db, Repair { kept: range.high })?;
    Ok(Ends {
        least: range.least,
        low,
        greatest: range.greatest,
        high,
    })
}

/// Tells both ends of an aggregate over the witnesses of a query without answer columns.
fn tell(alloc: Global, bound: &Bound<'_>, lax: u32, sought: &Sought) -> Result<Reply, Fail<TooMany>>
    requires lax { lax < length bound.now.query.now.atoms }
    requires strict { AreOthersStrict bound.now.query.now lax }
    requires asked { bound.now.query.now.answer ≡ [] }
    requires atom { sought.now.atom < length bound.now.query.now.atoms }
    ensures told { IfOk result (TellsJoinEnds bound.now.db.now bound.now.query.now lax sought.now) }
    ensures within { IfOk result (λ reply. HasTooMany bound.now.query.now bound.now.db.now [] → ⊥) }
    ensures over { IfErr result (IsOver (HasTooMany bound.now.query.now bound.now.db.now [])) }
{
    let range = join_range(alloc, bound, lax, sought)?;
    let ends = chosen_ends(alloc, bound.db, range)?;
    Ok(told(alloc, bound.db, ends)?)
}

/// Tells both ends for each group of the witnesses of a query without answer columns: for each value that one has in a column.
fn tell_groups(
    alloc: Global,
    bound: &Bound<'_>,
    lax: u32,
    sought: &Sought,
    col: ColRef,
) -> Result<Reply, Fail<TooMany>>
    requires lax { lax < length bound.now.query.now.atoms }
    requires strict { AreOthersStrict bound.now.query.now lax }
    requires asked { bound.now.query.now.answer ≡ [] }
    requires atom { sought.now.atom < length bound.now.query.now.atoms }
    requires column { col.atom < length bound.now.query.now.atoms }
    ensures told { IfOk result (TellsJoinGroups bound.now.db.now bound.now.query.now lax sought.now col) }
    ensures within { IfOk result (λ reply. HasTooMany bound.now.query.now bound.now.db.now [] → ⊥) }
    ensures over { IfErr result (IsOver (HasTooMany bound.now.query.now bound.now.db.now [])) }
{
    let groups = join_groups(alloc, bound, lax, sought, col)?;
    let lines = group_lines(alloc, groups)?;
    Ok(Reply::Groups(lines))
}

/// Tells both ends over all witnesses, or for each group of them by the values of a column.
fn tell_by(
    alloc: Global,
    bound: &Bound<'_>,
    lax: u32,
    sought: &Sought,
    group: Option<ColRef>,
) -> Result<Reply, Fail<TooMany>>
    requires lax { lax < length bound.now.query.now.atoms }
    requires strict { AreOthersStrict bound.now.query.now lax }
    requires asked { bound.now.query.now.answer ≡ [] }
    requires atom { sought.now.atom < length bound.now.query.now.atoms }
    requires column { IfSome group (λ col. col.atom < length bound.now.query.now.atoms) }
    ensures told { IfOk result (TellsJoinBy bound.now.db.now bound.now.query.now lax sought.now group) }
    ensures within { IfOk result (λ reply. HasTooMany bound.now.query.now bound.now.db.now [] → ⊥) }
    ensures over { IfErr result (IsOver (HasTooMany bound.now.query.now bound.now.db.now [])) }
{
    match group {
        None => tell(alloc, bound, lax, sought),
        Some(col) => tell_groups(alloc, bound, lax, sought, col),
    }
}

/// Tells both ends of what is asked of a query that fits the tables, or refuses it where it has too many witnesses.
fn tell_within(
    alloc: Global,
    session: &SessionState,
    range: &RangeQuery,
) -> Result<Reply, Fail<Refusal>>
    requires fits { FitsDatabase range.now.query session.now.tables }
    requires lax { range.now.lax < length range.now.query.atoms }
    requires strict { AreOthersStrict range.now.query range.now.lax }
    requires asked { range.now.query.answer ≡ [] }
    requires atom { range.now.atom < length range.now.query.atoms }
    requires column { IfSome range.now.group (λ col. col.atom < length range.now.query.atoms) }
    ensures { IsReplyOutcome result session.now (TellsJoin session.now range.now) session.now }
{
    let bound = Bound::new(session.database(), &range.query);
    let sought = Sought {
        goal: range.goal,
        atom: range.atom,
    };
    match tell_by(alloc, &bound, range.lax, &sought, range.group) {
        Ok(reply) => Ok(reply),
        Err(Fail::Refused(TooMany)) => Err(Fail::Refused(Refusal::WitnessLimit {
            row: Row::new(alloc),
        })),
        Err(Fail::NoMemory) => Err(Fail::NoMemory),
    }
}

/// Answers the least and the greatest value that an aggregate over the witnesses of a query has in a repair, each with a repair
/// that has it, or both values for each group of the witnesses. All tables but one have to be strict, and that one's rows are told.
///
/// # Errors
///
/// The first check of the tables, of the goal, of the conditions, of the column of the groups, and of which tables are strict,
/// that fails. Then `WitnessLimit` of the row `()`, exactly where the query has too many witnesses.
pub fn range_of_join(
    alloc: Global,
    session: &SessionState,
    range: &RawRange,
) -> Result<Reply, Fail<Refusal>>
    ensures { IsReplyOutcome result session.now (Replies (range_join_fault session.now.tables range.now) session.now (TellsRangeJoin session.now range.now)) session.now }
{
    let resolved = resolve_range(alloc, session.database(), range)?;
    let reply = tell_within(alloc, session, &resolved);
    drop(resolved);
    reply
}
