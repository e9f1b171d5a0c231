//! Why a row is certain for a union, or why it isn't: what the solver finds out of its formula.

ghost use Rattle.std.specs.Prelude.{IfErr, IfOk};
ghost use Rattle.cdcl.specs.Outcomes.{IsModel};
ghost use Rattle.join_access.specs.Listing.{IsOver};
ghost use Rattle.part_search.specs.Lookups.{HasLengthOf};
ghost use Rattle.part_search.specs.Parts.{HasTooManyIn};
ghost use Rattle.table_blocks.specs.Tables.{AreStored};
ghost use Rattle.union_ask.specs.Encodings.{IsEncodedIn};
ghost use Rattle.union_ask.specs.Reasons.{IsDecidedIn, IsReasonIn, IsStoppedIn};
ghost use Rattle.union_ask.specs.Repairs.{AreRejectingRowsIn};

use crate::encoding::union_encode;
use crate::repair::union_repair;
use cdcl::Outcome;
use cqa_model::RowId;
use cqa_value::{Fail, Items, NoMemory, Row};
use join_witness::TooMany;
use list_search::Decided;
use part_search::{BoundParts, solved_by_groups};
use repair_back::{Reason, Repair, Untold, chosen};
use row_lists::Encoded;
use std::alloc::Global;

/// Decides whether every repair holds a witness of a row for some part, by searches of at most `budget` conflicts each.
fn decide_row(
    alloc: Global,
    parts: &BoundParts<'_>,
    row: &Row,
    budget: u32,
) -> Result<Decided, Fail<TooMany>>
    requires long { HasLengthOf parts.now.queries.now row.now }
    ensures decided { IfOk result (IsDecidedIn parts.now.db.now parts.now.queries.now row.now budget) }
    ensures within { IfOk result (λ decided. HasTooManyIn parts.now.queries.now parts.now.db.now row.now → ⊥) }
    ensures over { IfErr result (IsOver (HasTooManyIn parts.now.queries.now parts.now.db.now row.now)) }
{
    let formula = union_encode(alloc, parts, row)?;
    let decided = solved_by_groups(alloc, formula, budget)?;
    Ok(decided)
}

/// The repair that a model of a row's formula gives, by the rows that it had to choose.
fn by_model(
    alloc: Global,
    parts: &BoundParts<'_>,
    _row: &Row,
    formula: &Encoded,
    model: &[bool],
) -> Result<Items<RowId>, NoMemory>
    requires formula { IsEncodedIn parts.now.db.now parts.now.queries.now _row.now formula.now }
    requires model { IsModel formula.now.cnf model.now }
    ensures rejected { IfOk result (AreRejectingRowsIn parts.now.db.now parts.now.queries.now _row.now) }
    ensures stored { IfOk result (AreStored parts.now.db.now) }
{
    let kept = union_repair(alloc, parts, formula.rows.as_slice(), model)?;
    chosen(alloc, parts.db, Repair { kept: kept.rows })
}

/// What the solver's answer to a row's formula tells of the row.
fn by_outcome(
    alloc: Global,
    parts: &BoundParts<'_>,
    row: &Row,
    _budget: u32,
    decided: Decided,
) -> Result<Reason, Fail<Untold>>
    requires within { HasTooManyIn parts.now.queries.now parts.now.db.now row.now → ⊥ }
    requires decided { IsDecidedIn parts.now.db.now parts.now.queries.now row.now _budget decided }
    ensures told { IfOk result (IsReasonIn parts.now.db.now parts.now.queries.now row.now _budget) }
    ensures untold { IfErr result (IsStoppedIn parts.now.db.now parts.now.queries.now row.now _budget) }
{
    let Decided { formula, outcome } = decided;
    match outcome {
        Outcome::Sat(model) => {
            let names = by_model(alloc, parts, row, &formula, model.as_slice());
            drop(model);
            drop(formula);
            Ok(Reason::Rejected(names?))
        }
        Outcome::Unsat(log) => {
            let cnf = formula.cnf;
            Ok(Reason::Refuted { cnf, log })
        }
        Outcome::Spent(log) => {
            let cnf = formula.cnf;
            Err(Fail::Refused(Untold::Spent { cnf, log }))
        }
    }
}

/// Why a row is certain for a union, by a refutation of its formula, or why it isn't, by a repair that holds no witness of it for
/// any part; by searches of at most `budget` conflicts each.
///
/// # Errors
///
/// `Over` exactly where the row has more than `MOST_WITNESSES` witnesses for all parts together; `Spent` where the budget doesn't
/// suffice, only for a candidate; `NoMemory` where memory is refused.
pub fn decide_union(
    alloc: Global,
    parts: &BoundParts<'_>,
    row: &Row,
    budget: u32,
) -> Result<Reason, Fail<Untold>>
    requires long { HasLengthOf parts.now.queries.now row.now }
    ensures told { IfOk result (IsReasonIn parts.now.db.now parts.now.queries.now row.now budget) }
    ensures untold { IfErr result (IsStoppedIn parts.now.db.now parts.now.queries.now row.now budget) }
{
    match decide_row(alloc, parts, row, budget) {
        Ok(decided) => by_outcome(alloc, parts, row, budget, decided),
        Err(Fail::Refused(TooMany)) => Err(Fail::Refused(Untold::Over)),
        Err(Fail::NoMemory) => Err(Fail::NoMemory),
    }
}
