//! Why a row is certain for a query, or why it isn't: what the solver finds out of its formula.

ghost use Rattle.std.specs.Prelude.{◌≡◌, IfErr, IfOk, length};
ghost use Rattle.cdcl.specs.Outcomes.{IsModel};
ghost use Rattle.join_access.specs.Listing.{HasTooMany};
ghost use Rattle.table_blocks.specs.Tables.{AreStored};
ghost use Rattle.repair_back.specs.Rejected.{AreRejectingRows};
ghost use Rattle.repair_clauses.specs.Encodings.{IsEncoded};
ghost use Rattle.union_ask.specs.QueryDeciding.{IsDecided};
ghost use Rattle.union_ask.specs.QueryReasons.{IsSearchReason, IsSearchStopped};

use crate::query_decision::decide;
use cdcl::Outcome;
use cqa_model::RowId;
use cqa_value::{Fail, Items, NoMemory, Row};
use join_access::TooMany;
use list_search::Decided;
use repair_back::{Reason, Untold, chosen, from_model};
use row_lists::Encoded;
use std::alloc::Global;
use table_blocks::Bound;

/// The repair that a model of a row's formula gives, by the rows that it had to choose.
fn by_model(
    alloc: Global,
    bound: &Bound<'_>,
    _row: &Row,
    formula: &Encoded,
    model: &[bool],
) -> Result<Items<RowId>, NoMemory>
    requires formula { IsEncoded bound.now.query.now bound.now.db.now _row.now formula.now }
    requires model { IsModel formula.now.cnf model.now }
    ensures rejected { IfOk result (AreRejectingRows bound.now.db.now bound.now.query.now _row.now) }
    ensures stored { IfOk result (AreStored bound.now.db.now) }
{
    let repair = from_model(alloc, bound, formula.rows.as_slice(), model)?;
    chosen(alloc, bound.db, repair)
}

/// What the solver's answer to a row's formula tells of the row.
fn by_outcome(
    alloc: Global,
    bound: &Bound<'_>,
    row: &Row,
    _budget: u32,
    decided: Decided,
) -> Result<Reason, Fail<Untold>>
    requires within { HasTooMany bound.now.query.now bound.now.db.now row.now → ⊥ }
    requires decided { IsDecided bound.now.query.now bound.now.db.now row.now _budget decided }
    ensures told { IfOk result (IsSearchReason bound.now.db.now bound.now.query.now row.now _budget) }
    ensures untold { IfErr result (IsSearchStopped bound.now.db.now bound.now.query.now row.now _budget) }
{
    let Decided { formula, outcome } = decided;
    match outcome {
        Outcome::Sat(model) => {
            let names = by_model(alloc, bound, row, &formula, model.as_slice());
            drop(model);
            drop(formula);
            Ok(Reason::Rejected(names?))
        }
        Outcome::Unsat(log) => {
            let cnf = formula.cnf;
            Ok(Reason::Refuted { cnf, log })
        }
        Outcome::Spent(log) => {
            let cnf = formula.cnf;
            Err(Fail::Refused(Untold::Spent { cnf, log }))
        }
    }
}

/// The reason of a row of any query, by searches of at most `budget` conflicts each.
///
/// # Errors
///
/// `Over` exactly where the row has more than `MOST_WITNESSES` witnesses; `Spent` where the budget doesn't suffice;
/// `NoMemory` where memory is refused.
pub fn reason_by_search(
    alloc: Global,
    bound: &Bound<'_>,
    row: &Row,
    budget: u32,
) -> Result<Reason, Fail<Untold>>
    requires { length row.now ≡ length bound.now.query.now.answer }
    ensures told { IfOk result (IsSearchReason bound.now.db.now bound.now.query.now row.now budget) }
    ensures untold { IfErr result (IsSearchStopped bound.now.db.now bound.now.query.now row.now budget) }
{
    match decide(alloc, bound, row, budget) {
        Ok(decided) => by_outcome(alloc, bound, row, budget, decided),
        Err(Fail::Refused(TooMany)) => Err(Fail::Refused(Untold::Over)),
        Err(Fail::NoMemory) => Err(Fail::NoMemory),
    }
}
