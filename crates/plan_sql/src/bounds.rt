//! The atoms before an atom, and the keys that those with few rows ask for.

ghost use Rattle.std.specs.Prelude.{◌≡◌, ◌++◌, ◌∷◌, ◌<◌, ◌&&◌, ◌||◌, [], IfOk, OnOk, All, Some, length, map, slice_index};
ghost use Rattle.std.specs.List.{range_with_len};
ghost use Rattle.plan_sql.specs.declared.bounds.Bound.{Bound as BoundValue};
ghost use Rattle.sql_steps.specs.Variables.{key_variables, meets, variables_of};
ghost use Rattle.sql_steps.specs.Steps.{cell_of, rows_of_atom};
ghost use Rattle.plan_sql.specs.Statement.{asked_steps, asked_variables, bound_for, bound_of, is_bound, keys_in, only_of};

use crate::few::has_rare_test;
use crate::levels::push_step;
use cqa_value::{Items, NoMemory};
use sql_steps::{Known, Shape, ascending, cell_of, keyed, meets, rows_of_atom, within};
use sql_text::{Body, Step, StepKind, Within};
use std::alloc::Global;

/// An atom before others: the columns whose values are in steps, and whether its rows are few: few are taken to meet a test of
/// it, or there are such columns.
#[derive(Drop)]
pub(crate) struct Bound {
    pub atom: u32,
    pub only: Items<Within>,
    pub few: bool,
}

/// Whether an atom has few rows.
fn is_bound(shape: &Shape<'_>, bounds: &[Bound], atom: u32, only: &[Within]) -> bool
    ensures { result ≡ is_bound shape.now.query.now bounds.now atom only.now }
{
    !only.is_empty() || has_rare_test(shape, bounds, atom)
}

impl Bound {
    /// A copy.
    fn copy(&self, alloc: Global) -> Result<Bound, NoMemory>
        ensures { IfOk result (λ bound. bound ≡ self.now) }
    {
        let only = Items::from_slice(alloc, self.only.as_slice())?;
        Ok(Bound {
            atom: self.atom,
            only,
            few: self.few,
        })
    }
}

/// Appends copies of bounds.
fn append_bounds(alloc: Global, bounds: &[Bound], list: &mut Items<Bound>) -> Result<(), NoMemory>
    ensures { OnOk result (list.new ≡ list.old ++ bounds.now) }
{
    for bound in bounds {
        list.push(bound.copy(alloc)?)?;
    }
    Ok(())
}

/// Appends an atom, and then those before it.
fn append_next(
    alloc: Global,
    shape: &Shape<'_>,
    bounds: &[Bound],
    atom: u32,
    only: &[Within],
    list: &mut Items<Bound>,
) -> Result<(), NoMemory>
    ensures { OnOk result (list.new ≡ list.old ++ bound_of shape.now.query.now bounds.now atom only.now ∷ bounds.now) }
{
    let few = is_bound(shape, bounds, atom, only);
    let only = Items::from_slice(alloc, only)?;
    list.push(Bound { atom, only, few })?;
    append_bounds(alloc, bounds, list)
}

/// The atoms before those behind an atom.
pub(crate) fn next_bounds(
    alloc: Global,
    shape: &Shape<'_>,
    bounds: &[Bound],
    atom: u32,
    only: &[Within],
) -> Result<Items<Bound>, NoMemory>
    ensures { IfOk result (λ list. list ≡ bound_of shape.now.query.now bounds.now atom only.now ∷ bounds.now) }
{
    let mut list = Items::new(alloc);
    match append_next(alloc, shape, bounds, atom, only, &mut list) {
        Ok(()) => Ok(list),
        Err(refused) => {
            drop(list);
            Err(refused)
        }
    }
}

/// The variables of an atom's key that are asked for by another.
fn asked_variables(
    alloc: Global,
    shape: &Shape<'_>,
    atom: u32,
    other: u32,
) -> Result<Items<u32>, NoMemory>
    requires atom { atom < length shape.now.query.now.atoms }
    requires other { other < length shape.now.query.now.atoms }
    ensures { IfOk result (λ list. list ≡ asked_variables shape.now.query.now atom other) }
{
    let keys = shape.key_variables(alloc, atom)?;
    let asked = within(alloc, keys.as_slice(), shape.of(other))?;
    ascending(alloc, asked.as_slice())
}

/// The cells of these variables, each of which has a value of the column of the step at its own place.
fn only_in(
    alloc: Global,
    known: &[Known],
    place: usize,
    columns: &[u32],
) -> Result<Items<Within>, NoMemory>
    ensures { IfOk result (λ only. only ≡ map (λ j. record { cell = cell_of known.now (slice_index columns.now j); step = place; column = j }) (range_with_len 0 (length columns.now))) }
{
    let mut only = Items::new(alloc);
    for column in 0..columns.len() {
        only.push(Within {
            cell: cell_of(known, columns[column]),
            step: place,
            column,
        })?;
    }
    Ok(only)
}

/// Key columns of an atom, by their variables, whose values are in the columns of the step at a place.
pub(crate) fn keys_in(
    alloc: Global,
    shape: &Shape<'_>,
    atom: u32,
    place: usize,
    columns: &[u32],
) -> Result<Items<Within>, NoMemory>
    requires { atom < length shape.now.query.now.atoms }
    ensures { IfOk result (λ only. only ≡ keys_in shape.now.query.now atom place columns.now) }
{
    let key = keyed(alloc, shape, atom, Items::new(alloc))?;
    let only = only_in(alloc, key.known.as_slice(), place, columns);
    drop(key);
    only
}

/// Appends the step that asks for keys of an atom, by an atom with few rows; says which columns have its values.
fn push_asked_by(
    alloc: Global,
    shape: &Shape<'_>,
    number: usize,
    atom: u32,
    bound: &Bound,
    steps: &mut Items<Step>,
) -> Result<Items<Within>, NoMemory>
    requires atom { atom < length shape.now.query.now.atoms }
    requires bound { bound.now.atom < length shape.now.query.now.atoms }
    ensures steps { OnOk result (steps.new ≡ steps.old ++ asked_steps shape.now.query.now number atom (Some bound.now)) }
    ensures only { IfOk result (λ only. only ≡ only_of shape.now.query.now atom (length steps.old) (Some bound.now)) }
{
    let place = steps.len();
    let columns = asked_variables(alloc, shape, atom, bound.atom)?;
    let only = keys_in(alloc, shape, atom, place, columns.as_slice())?;
    let asked = columns.as_slice();
    let select = rows_of_atom(alloc, shape, bound.atom, bound.only.as_slice(), &[], asked)?;
    let body = Body::Distinct(select);
    push_step(alloc, StepKind::Asked, number, asked, body, steps)?;
    Ok(only)
}

/// Whether an atom before has few rows, and one of these variables.
fn asks(shape: &Shape<'_>, bound: &Bound, keys: &[u32]) -> bool
    requires { bound.now.atom < length shape.now.query.now.atoms }
    ensures { result ≡ (bound.now.few && meets (variables_of shape.now.query.now bound.now.atom) keys.now) }
{
    bound.few && meets(shape.of(bound.atom), keys)
}

/// Appends the step that asks for keys of an atom, if there is one; says which columns have its values.
pub(crate) fn push_asked(
    alloc: Global,
    shape: &Shape<'_>,
    number: usize,
    atom: u32,
    bounds: &[Bound],
    steps: &mut Items<Step>,
) -> Result<Items<Within>, NoMemory>
    requires atom { atom < length shape.now.query.now.atoms }
    requires bounds { All (λ (b : BoundValue). b.atom < length shape.now.query.now.atoms) bounds.now }
    ensures steps { OnOk result (steps.new ≡ steps.old ++ asked_steps shape.now.query.now number atom (bound_for shape.now.query.now bounds.now atom)) }
    ensures only { IfOk result (λ only. only ≡ only_of shape.now.query.now atom (length steps.old) (bound_for shape.now.query.now bounds.now atom)) }
{
    let keys = shape.key_variables(alloc, atom)?;
    for bound in bounds {
        if asks(shape, bound, keys.as_slice()) {
            return push_asked_by(alloc, shape, number, atom, bound, steps);
        }
    }
    Ok(Items::new(alloc))
}
