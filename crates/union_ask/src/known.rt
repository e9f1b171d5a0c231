//! The certain rows of each of some queries, where its method tells them without a search.

ghost use Rattle.std.specs.Prelude.{◌≡◌, ◌↔◌, [], IfOk, IfSome, IsTrue, OnOk};
ghost use Rattle.std.specs.List.{AllZip};
ghost use Rattle.std.specs.List.Sorted.{IsStrictlySortedBy};
ghost use Rattle.cqa_value.specs.Values.{row_cmp};
ghost use Rattle.union_ask.specs.Known.{HoldsRow, IsKnown, IsKnownFor};

use crate::method::strategy_over;
use cqa_value::{Items, NoMemory, Row};
use fo_plan::certain_by_plan;
use pair_formula::{PairQuery, rows_by_pairs};
use query_strategy::Strategy;
use row_answers::Side;
use std::alloc::Global;
use std::marker::Model;
use table_blocks::Bound;

/// For each of some queries its certain rows, ascending and each once, or nothing where they aren't known.
#[derive(Drop)]
pub struct KnownRows {
    rows: Items<Option<Items<Row>>>,
}

impl Model for KnownRows {
    ghost use Rattle.std.specs.Prelude.{List, Option};
    ghost use Rattle.cqa_value.specs.declared.value.Value.{Value as Cell};

    ghost Value = { List (Option (List (List Cell))) };

    ghost view = { λ k. k.rows };
}

/// Is the row among these, where they are known?
fn holds(known: &Option<Items<Row>>, row: &Row) -> bool
    requires { IfSome known.now (IsStrictlySortedBy row_cmp) }
    ensures { IsTrue result ↔ HoldsRow known.now row.now }
{
    match known {
        Some(rows) => rows.as_slice().binary_search(row).is_ok(),
        None => false,
    }
}

impl KnownRows {
    ghost use Rattle.std.specs.Prelude.{◌≡◌, ◌↔◌, IsTrue, length};
    ghost use Rattle.union_ask.specs.Known.{AreAscending, AreKnownAmong, IsAmong};

    /// Is the row among the known rows of one of the queries that are given?
    pub fn is_among(&self, given: &[bool], row: &Row) -> bool
        requires one_each { length given.now ≡ length self.now }
        requires ascending { AreAscending self.now }
        ensures { IsTrue result ↔ IsAmong self.now given.now row.now }
    {
        let known = self.rows.as_slice();
        for at in 0..known.len() {
            if !given[at] {
                continue;
            }
            if holds(&known[at], row) {
                return true;
            }
        }
        false
    }

    /// Are the rows of each of the queries that are given known?
    pub fn are_known(&self, given: &[bool]) -> bool
        requires { length given.now ≡ length self.now }
        ensures { IsTrue result ↔ AreKnownAmong self.now given.now }
    {
        let known = self.rows.as_slice();
        for at in 0..known.len() {
            if !given[at] {
                continue;
            }
            if known[at].is_none() {
                return false;
            }
        }
        true
    }
}

/// The certain rows of a query by an order or over pairs, or nothing where it needs a search.
fn known_alone(alloc: Global, bound: &Bound<'_>) -> Result<Option<Items<Row>>, NoMemory>
    ensures { IfOk result (IsKnown bound.now.db.now bound.now.query.now) }
{
    match strategy_over(alloc, bound)? {
        Strategy::Plan(plan) => {
            let rows = certain_by_plan(alloc, bound, &plan);
            drop(plan);
            Ok(Some(rows?))
        }
        Strategy::Pair => {
            let pair = PairQuery::new(bound);
            let rows = rows_by_pairs(alloc, &pair, Side::Certain)?;
            Ok(Some(rows))
        }
        Strategy::Search => Ok(None),
    }
}

/// The certain rows of each query behind those of the ones before it.
fn add_known(
    alloc: Global,
    bounds: &[Bound<'_>],
    known: &mut Vec<Option<Items<Row>>>,
) -> Result<(), NoMemory>
    requires none { known.old.items ≡ [] }
    ensures { OnOk result (AllZip IsKnownFor bounds.now known.new.items) }
{
    for bound in bounds {
        known.push(known_alone(alloc, bound)?)?;
    }
    Ok(())
}

/// The certain rows of each of these queries over its database that needs no search.
///
/// # Errors
///
/// `NoMemory` where memory is refused.
pub fn known_rows(alloc: Global, bounds: &[Bound<'_>]) -> Result<KnownRows, NoMemory>
    ensures { IfOk result (λ known. AllZip IsKnownFor bounds.now known) }
{
    let mut known = Vec::new(alloc);
    match add_known(alloc, bounds, &mut known) {
        Ok(()) => Ok(KnownRows {
            rows: Items::from_vec(known),
        }),
        Err(fault) => {
            drop(known);
            Err(fault)
        }
    }
}
