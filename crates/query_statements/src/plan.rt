//! `plan`: the tables of a query in the order of its plan.

ghost use Rattle.std.specs.Prelude.{◌≡◌, ◌<◌, ℕ, [], IfOk, Contains, length, slice_index_or};
ghost use Rattle.query_resolve.specs.Checks.{query_fault};
ghost use Rattle.session_state.specs.Replying.{Replies, IsReplyOutcome};
ghost use Rattle.query_statements.specs.Plan.{names_at, ShowsPlan};

use cqa_value::{Fail, Items, Name, NoMemory};
use fo_rewrite::plan_of;
use query_resolve::resolve;
use refusals::Refusal;
use reply_text::Reply;
use session_state::SessionState;
use spj_syntax::Select;
use std::alloc::Global;

/// Answers the steps of a query's plan, or that it has none.
///
/// # Errors
///
/// The first check of the query that fails.
pub fn plan(alloc: Global, session: &SessionState, select: &Select) -> Result<Reply, Fail<Refusal>>
    ensures { IsReplyOutcome result session.now (Replies (query_fault session.now.tables select.now) session.now (ShowsPlan session.now select.now)) session.now }
{
    let query = resolve(alloc, session.database(), select)?;
    let found = plan_of(alloc, &query);
    drop(query);
    let Some(plan) = found? else {
        return Ok(Reply::NoPlan);
    };
    let steps = names_of(alloc, select.tables.as_slice(), plan.order.as_slice());
    drop(plan);
    Ok(Reply::Steps(steps?))
}

/// The names of some atoms.
fn names_of(alloc: Global, names: &[Name], atoms: &[u32]) -> Result<Items<Name>, NoMemory>
    requires { (F : ℕ) → Contains atoms.now F → F < length names.now }
    ensures { IfOk result (λ steps. steps ≡ names_at names.now atoms.now) }
{
    let mut steps = Items::new(alloc);
    for atom in atoms {
        steps.push(name_of(alloc, names, *atom)?)?;
    }
    Ok(steps)
}

/// The name of an atom.
fn name_of(alloc: Global, names: &[Name], atom: u32) -> Result<Name, NoMemory>
    requires { atom < length names.now }
    ensures { IfOk result (λ name. name ≡ slice_index_or names.now atom []) }
{
    names[atom as usize].copy(alloc)
}
