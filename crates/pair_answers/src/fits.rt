//! Which rows fit the row asked for by themselves.
//! The variables' classes tell which columns are linked, so no closure is computed.

ghost use Rattle.std.specs.Prelude.{◌↔◌, ◌<◌, Contains, IsTrue};
ghost use Rattle.cqa_model.specs.declared.query.ColRef.{ColRef as Column};
ghost use Rattle.cqa_model.specs.Query.{atom_at};
ghost use Rattle.cqa_model.specs.Shape.{IsInRange, columns_of};
ghost use Rattle.weak_pairs.specs.Pairs.{FitsAlone};
ghost use Rattle.pair_answers.specs.Fitting.{HasLinkedAnswer, GivenBy, GivenFits, HasValueOf, HaveValueOf, OwnFits};

use crate::side::Side;
use cqa_model::{ColRef, Cond, Op};
use cqa_value::{NOTHING, Row, Value};
use join_access::{are_linked, passes_tests};

/// Whether a column of a row has the value of another column, if it is linked to that.
fn has_value(side: &Side<'_, '_>, x: &Row, i: u32, other: ColRef, value: &Value) -> bool
    requires column { i < (atom_at side.now.bound.now.query.now side.now.atom).width }
    requires other { IsInRange side.now.bound.now.query.now.atoms other }
    ensures { IsTrue result ↔ HasValueOf side.now.bound.now.query.now side.now.atom x.now i other value.now }
{
    let column = ColRef {
        atom: side.atom,
        col: i,
    };
    !are_linked(side.bound.query, &side.bound.variables, column, other)
        || x.at_or(i, &NOTHING) == value
}

/// Whether the columns of a row that are linked to another column have its value.
fn have_value(side: &Side<'_, '_>, x: &Row, other: ColRef, value: &Value) -> bool
    requires { IsInRange side.now.bound.now.query.now.atoms other }
    ensures { IsTrue result ↔ HaveValueOf side.now.bound.now.query.now side.now.atom x.now other value.now }
{
    for i in 0..side.bound.width_of(side.atom) {
        if !has_value(side, x, i, other, value) {
            return false;
        }
    }
    true
}

/// Whether linked columns of a row have one value.
fn own_fits(side: &Side<'_, '_>, x: &Row) -> bool
    ensures { IsTrue result ↔ OwnFits side.now.bound.now.query.now side.now.atom x.now }
{
    for j in 0..side.bound.width_of(side.atom) {
        let column = ColRef {
            atom: side.atom,
            col: j,
        };
        if !have_value(side, x, column, x.at_or(j, &NOTHING)) {
            return false;
        }
    }
    true
}

/// Whether the columns of a row that are linked to the answer's have the values of the row asked for.
fn answer_fits(side: &Side<'_, '_>, x: &Row) -> bool
    ensures { IsTrue result ↔ HasLinkedAnswer side.now.bound.now.query.now side.now.row.now side.now.atom x.now }
{
    let answer = side.bound.query.answer.as_slice();
    for k in 0..answer.len() as u32 {
        if !have_value(side, x, answer[k as usize], side.row.at_or(k, &NOTHING)) {
            return false;
        }
    }
    true
}

/// Whether the columns of a row have the value that a condition gives to them, if it gives one.
fn given_by(side: &Side<'_, '_>, x: &Row, cond: &Cond) -> bool
    requires { (c : Column) → Contains (columns_of cond.now) c → IsInRange side.now.bound.now.query.now.atoms c }
    ensures { IsTrue result ↔ GivenBy side.now.bound.now.query.now side.now.atom x.now cond.now }
{
    match cond {
        Cond::Test {
            col,
            op: Op::Eq,
            value,
        } => have_value(side, x, *col, value),
        _ => true,
    }
}

/// Whether the columns of a row have the values that tests with = give to them.
fn given_fits(side: &Side<'_, '_>, x: &Row) -> bool
    ensures { IsTrue result ↔ GivenFits side.now.bound.now.query.now side.now.atom x.now }
{
    for cond in side.bound.query.conds.as_slice() {
        if !given_by(side, x, cond) {
            return false;
        }
    }
    true
}

/// Whether a row fits by itself. It isn't looked at where each row of its atom does.
pub(crate) fn fits(side: &Side<'_, '_>, x: &Row) -> bool
    ensures { IsTrue result ↔ FitsAlone side.now.bound.now.query.now side.now.row.now side.now.atom x.now }
{
    if side.all_fit {
        return true;
    }
    if !own_fits(side, x) {
        return false;
    }
    if !passes_tests(side.bound.query, side.atom, x) {
        return false;
    }
    if !answer_fits(side, x) {
        return false;
    }
    given_fits(side, x)
}
