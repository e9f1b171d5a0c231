//! Why a row of a pair is certain: its formula, and a refutation of it.

ghost use Rattle.std.specs.Prelude.{◌≡◌, IfErr, IfOk, length};
ghost use Rattle.cqa_model.specs.Certain.{IsCertain};
ghost use Rattle.cnf_form.specs.Logs.{Refutes, AreConsecutive};
ghost use Rattle.join_access.specs.Listing.{HasTooMany, IsOver};
ghost use Rattle.pair_refutation.specs.Formulas.{IsPairFormula, IsUnsatisfiable};
ghost use Rattle.pair_formula.specs.Proving.{IsRefutedInOrder};

use cnf_form::Log;
use cqa_value::{Fail, NoMemory, Row};
use join_access::TooMany;
use join_witness::witnesses;
use pair_answers::PairQuery;
use pair_refutation::refute;
use repair_clauses::encode;
use row_lists::Encoded;
use std::alloc::Global;

/// The formula of a certain row, and a log that refutes it.
#[derive(Drop)]
pub struct Refuted {
    pub formula: Encoded,
    pub log: Log,
}

/// A formula with a refutation of it.
fn with_log(alloc: Global, formula: Encoded) -> Result<Refuted, NoMemory>
    requires formula { IsPairFormula formula.cnf }
    requires none { IsUnsatisfiable formula.cnf }
    ensures same { IfOk result (λ refuted. refuted.formula ≡ formula) }
    ensures refutes { IfOk result (λ refuted. Refutes formula.cnf refuted.log.steps) }
    ensures ids { IfOk result (λ refuted. AreConsecutive (length formula.cnf.clauses) refuted.log.steps) }
{
    match refute(alloc, &formula.cnf) {
        Ok(log) => Ok(Refuted { formula, log }),
        Err(fault) => {
            drop(formula);
            Err(fault)
        }
    }
}

/// The formula of a certain row of a pair, and a refutation of it.
///
/// # Errors
///
/// `TooMany` exactly where the row has more than `MOST_WITNESSES` witnesses; `NoMemory` where memory is refused.
pub fn refute_row<'a>(
    alloc: Global,
    pair: &'a PairQuery<'a>,
    row: &'a Row,
) -> Result<Refuted, Fail<TooMany>>
    requires long { length row.now ≡ length pair.now.bound.now.query.now.answer }
    requires certain { IsCertain pair.now.bound.now.db.now pair.now.bound.now.query.now row.now }
    ensures refuted { IfOk result (IsRefutedInOrder pair.now.bound.now.db.now pair.now.bound.now.query.now row.now) }
    ensures within { IfOk result (λ refuted. HasTooMany pair.now.bound.now.query.now pair.now.bound.now.db.now row.now → ⊥) }
    ensures over { IfErr result (IsOver (HasTooMany pair.now.bound.now.query.now pair.now.bound.now.db.now row.now)) }
{
    let found = witnesses(alloc, pair.bound, row)?;
    let formula = encode(alloc, &found);
    drop(found);
    let refuted = with_log(alloc, formula?)?;
    Ok(refuted)
}
