//! Why a row of a pair is certain, or why it isn't: a repair, or a refutation of its formula. There is no search.

ghost use Rattle.std.specs.Prelude.{◌≡◌, IfErr, IfOk, length};
ghost use Rattle.cqa_model.specs.Certain.{IsCertain};
ghost use Rattle.join_access.specs.Listing.{HasTooMany, IsOver};
ghost use Rattle.pair_formula.specs.Reasons.{IsPairReason};

use crate::proving::{Refuted, refute_row};
use cqa_value::{Fail, Row};
use join_access::TooMany;
use pair_answers::{PairQuery, decide};
use repair_back::{Reason, Repair, chosen};
use std::alloc::Global;

/// The formula of a certain row with its refutation.
fn by_refutation(alloc: Global, pair: &PairQuery<'_>, row: &Row) -> Result<Reason, Fail<TooMany>>
    requires long { length row.now ≡ length pair.now.bound.now.query.now.answer }
    requires certain { IsCertain pair.now.bound.now.db.now pair.now.bound.now.query.now row.now }
    ensures told { IfOk result (IsPairReason pair.now.bound.now.db.now pair.now.bound.now.query.now row.now) }
    ensures over { IfErr result (IsOver (HasTooMany pair.now.bound.now.query.now pair.now.bound.now.db.now row.now × IsCertain pair.now.bound.now.db.now pair.now.bound.now.query.now row.now)) }
{
    match refute_row(alloc, pair, row) {
        Ok(Refuted { formula, log }) => {
            let cnf = formula.cnf;
            Ok(Reason::Refuted { cnf, log })
        }
        Err(Fail::Refused(TooMany)) => Err(Fail::Refused(TooMany)),
        Err(Fail::NoMemory) => Err(Fail::NoMemory),
    }
}

/// The reason of a row of a pair.
///
/// # Errors
///
/// `TooMany` exactly where the row is certain and has more than `MOST_WITNESSES` witnesses; `NoMemory` where memory is
/// refused.
pub fn reason_by_pair(
    alloc: Global,
    pair: &PairQuery<'_>,
    row: &Row,
) -> Result<Reason, Fail<TooMany>>
    requires { length row.now ≡ length pair.now.bound.now.query.now.answer }
    ensures told { IfOk result (IsPairReason pair.now.bound.now.db.now pair.now.bound.now.query.now row.now) }
    ensures over { IfErr result (IsOver (HasTooMany pair.now.bound.now.query.now pair.now.bound.now.db.now row.now × IsCertain pair.now.bound.now.db.now pair.now.bound.now.query.now row.now)) }
{
    match decide(alloc, pair, row)? {
        Some(kept) => {
            let repair = Repair { kept: kept.rows };
            let names = chosen(alloc, pair.bound.db, repair)?;
            Ok(Reason::Rejected(names))
        }
        None => by_refutation(alloc, pair, row),
    }
}
