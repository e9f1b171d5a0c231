//! Tests that few rows are taken to meet, and atoms few blocks of which can hold: where there is such a test, and where a part
//! holds in few contexts.

ghost use Rattle.std.specs.Prelude.{◌≡◌, ◌++◌, ◌∷◌, ◌<◌, ◌||◌, [], IfOk, OnOk, if◌then◌else◌, length, map, slice_index};
ghost use Rattle.std.specs.List.{filter, list_any, range_with_len};
ghost use Rattle.cqa_model.specs.declared.query.Cond.{Cond as CondValue};
ghost use Rattle.sql_steps.specs.declared.part.Part.{Part as PartValue};
ghost use Rattle.sql_steps.specs.Variables.{has};
ghost use Rattle.sql_steps.specs.Steps.{cell_of, fitted};
ghost use Rattle.plan_sql.specs.Statement.{has_few, is_few_test, is_rare_test, is_test_elsewhere, is_tested_alone, is_tested_elsewhere, is_value_test, part_only, rare_only};

use crate::bounds::Bound;
use cqa_model::{Cond, Op};
use cqa_value::{Items, NoMemory};
use sql_steps::{Known, Part, Shape, cell_of, has, row_fit};
use sql_text::Within;
use std::alloc::Global;

/// Whether a condition is a test of an atom for one value.
fn is_value_test(atom: u32, cond: &Cond) -> bool
    ensures { result ≡ is_value_test atom cond.now }
{
    match cond {
        Cond::Join { .. } => false,
        Cond::Test { col, op, .. } => match op {
            Op::Eq => col.atom == atom,
            Op::Ne | Op::Lt | Op::Le | Op::Gt | Op::Ge => false,
        },
    }
}

/// Whether one of these conditions is a test of an atom for one value.
fn has_value_test(atom: u32, conds: &[Cond]) -> bool
    ensures { result ≡ list_any (λ (k : CondValue). is_value_test atom k) conds.now }
{
    for cond in conds {
        if is_value_test(atom, cond) {
            return true;
        }
    }
    false
}

/// Whether a condition is a test of another atom.
fn is_test_elsewhere(atom: u32, cond: &Cond) -> bool
    ensures { result ≡ is_test_elsewhere atom cond.now }
{
    match cond {
        Cond::Join { .. } => false,
        Cond::Test { col, .. } => col.atom != atom,
    }
}

/// Whether another atom has a test.
fn is_tested_elsewhere(shape: &Shape<'_>, atom: u32) -> bool
    ensures { result ≡ is_tested_elsewhere shape.now.query.now atom }
{
    for cond in shape.query.conds.as_slice() {
        if is_test_elsewhere(atom, cond) {
            return true;
        }
    }
    false
}

/// Whether no other atom has a test, and none is before this one, of which these are.
fn is_tested_alone(shape: &Shape<'_>, bounds: &[Bound], atom: u32) -> bool
    ensures { result ≡ is_tested_alone shape.now.query.now bounds.now atom }
{
    bounds.is_empty() && !is_tested_elsewhere(shape, atom)
}

/// Whether a condition is a test of an atom that few rows are taken to meet: one for one value, and a range where it alone has tests.
fn is_rare_test(shape: &Shape<'_>, bounds: &[Bound], atom: u32, cond: &Cond) -> bool
    ensures { result ≡ is_rare_test shape.now.query.now bounds.now atom cond.now }
{
    match cond {
        Cond::Join { .. } => false,
        Cond::Test { col, op, .. } => match op {
            Op::Eq => col.atom == atom,
            Op::Ne => false,
            Op::Lt | Op::Le | Op::Gt | Op::Ge => {
                col.atom == atom && is_tested_alone(shape, bounds, atom)
            }
        },
    }
}

/// Whether few rows of an atom are taken to meet some test of it.
pub(crate) fn has_rare_test(shape: &Shape<'_>, bounds: &[Bound], atom: u32) -> bool
    ensures { result ≡ list_any (λ (k : CondValue). is_rare_test shape.now.query.now bounds.now atom k) shape.now.query.now.conds }
{
    for cond in shape.query.conds.as_slice() {
        if is_rare_test(shape, bounds, atom, cond) {
            return true;
        }
    }
    false
}

/// Whether a condition is a test of a column of an atom outside its key: for one value, or, where parts hang on the atom, one that
/// few rows are taken to meet.
fn is_few_test(shape: &Shape<'_>, bounds: &[Bound], atom: u32, parts: &[Part], cond: &Cond) -> bool
    requires { atom < length shape.now.query.now.atoms }
    ensures { result ≡ is_few_test shape.now.query.now bounds.now atom parts.now cond.now }
{
    match cond {
        Cond::Join { .. } => false,
        Cond::Test { col, .. } => {
            let is_few = if parts.is_empty() {
                is_value_test(atom, cond)
            } else {
                is_rare_test(shape, bounds, atom, cond)
            };
            is_few && !has(shape.key(atom), col.col)
        }
    }
}

/// Whether there is such a test.
fn has_few_test(shape: &Shape<'_>, bounds: &[Bound], atom: u32, parts: &[Part]) -> bool
    requires { atom < length shape.now.query.now.atoms }
    ensures { result ≡ list_any (λ (k : CondValue). is_few_test shape.now.query.now bounds.now atom parts.now k) shape.now.query.now.conds }
{
    for cond in shape.query.conds.as_slice() {
        if is_few_test(shape, bounds, atom, parts, cond) {
            return true;
        }
    }
    false
}

/// Whether few contexts hold in some of these parts.
fn has_rare(parts: &[Part]) -> bool
    ensures { result ≡ list_any (λ (p : PartValue). p.rare) parts.now }
{
    for part in parts {
        if part.rare {
            return true;
        }
    }
    false
}

/// Whether few contexts hold in the part of an atom, where these parts hang on it.
pub(crate) fn is_rare(shape: &Shape<'_>, atom: u32, parts: &[Part]) -> bool
    ensures { result ≡ (list_any (λ (k : CondValue). is_value_test atom k) shape.now.query.now.conds || list_any (λ (p : PartValue). p.rare) parts.now) }
{
    has_value_test(atom, shape.query.conds.as_slice()) || has_rare(parts)
}

/// Whether few blocks of an atom can hold.
pub(crate) fn has_few(shape: &Shape<'_>, bounds: &[Bound], atom: u32, parts: &[Part]) -> bool
    requires { atom < length shape.now.query.now.atoms }
    ensures { result ≡ has_few shape.now.query.now bounds.now atom parts.now }
{
    has_few_test(shape, bounds, atom, parts) || has_rare(parts)
}

/// Appends a column of an atom whose values are in a column of a part's contexts, if they share its variable.
fn append_column(
    vs: &[u32],
    known: &[Known],
    part: &Part,
    column: usize,
    only: &mut Items<Within>,
) -> Result<(), NoMemory>
    requires { column < length part.now.columns }
    ensures { OnOk result (only.new ≡ only.old ++ (if has vs.now (slice_index part.now.columns column) then record { cell = cell_of known.now (slice_index part.now.columns column); step = part.now.step; column = column } ∷ [] else [])) }
{
    let variable = part.columns.as_slice()[column];
    if !has(vs, variable) {
        return Ok(());
    }
    only.push(Within {
        cell: cell_of(known, variable),
        step: part.step,
        column,
    })
}

/// Appends columns of an atom whose values are in a part's contexts, where these are what is known of the atom.
fn append_part(
    vs: &[u32],
    known: &[Known],
    part: &Part,
    only: &mut Items<Within>,
) -> Result<(), NoMemory>
    ensures { OnOk result (only.new ≡ only.old ++ map (λ j. record { cell = cell_of known.now (slice_index part.now.columns j); step = part.now.step; column = j }) (filter (λ j. has vs.now (slice_index part.now.columns j)) (range_with_len 0 (length part.now.columns)))) }
{
    for column in 0..part.columns.len() {
        append_column(vs, known, part, column, only)?;
    }
    Ok(())
}

/// Appends so for each of these parts in which few contexts hold.
fn append_rare(
    shape: &Shape<'_>,
    atom: u32,
    known: &[Known],
    parts: &[Part],
    only: &mut Items<Within>,
) -> Result<(), NoMemory>
    requires atom { atom < length shape.now.query.now.atoms }
    requires known { known.now ≡ (fitted shape.now.query.now atom []).known }
    ensures { OnOk result (only.new ≡ only.old ++ rare_only shape.now.query.now atom parts.now) }
{
    for part in parts {
        append_if_rare(shape, atom, known, part, only)?;
    }
    Ok(())
}

/// Appends so for a part, if few contexts hold in it.
fn append_if_rare(
    shape: &Shape<'_>,
    atom: u32,
    known: &[Known],
    part: &Part,
    only: &mut Items<Within>,
) -> Result<(), NoMemory>
    requires atom { atom < length shape.now.query.now.atoms }
    requires known { known.now ≡ (fitted shape.now.query.now atom []).known }
    ensures { OnOk result (only.new ≡ only.old ++ (if part.now.rare then part_only shape.now.query.now atom part.now else [])) }
{
    if !part.rare {
        return Ok(());
    }
    append_part(shape.of(atom), known, part, only)
}

/// These columns whose values are in steps, and those of the parts in which few contexts hold.
pub(crate) fn few_only(
    alloc: Global,
    shape: &Shape<'_>,
    atom: u32,
    only: &[Within],
    parts: &[Part],
) -> Result<Items<Within>, NoMemory>
    requires { atom < length shape.now.query.now.atoms }
    ensures { IfOk result (λ list. list ≡ only.now ++ rare_only shape.now.query.now atom parts.now) }
{
    let mut list = Items::from_slice(alloc, only)?;
    let fit = row_fit(alloc, shape, atom, Items::new(alloc))?;
    let appended = append_rare(shape, atom, fit.known.as_slice(), parts, &mut list);
    drop(fit);
    appended?;
    Ok(list)
}
