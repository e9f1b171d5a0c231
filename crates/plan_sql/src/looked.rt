//! The steps that look for the contexts of an atom's blocks, in the rows of atoms before it.

ghost use Rattle.std.specs.Prelude.{◌≡◌, ◌++◌, ◌∷◌, ◌<◌, [], IfOk, OnOk, All, is_some, length};
ghost use Rattle.std.specs.Option.{unwrap_or};
ghost use Rattle.sql_text.specs.declared.syntax.Body.TheVariants.{Distinct as DistinctBody};
ghost use Rattle.sql_text.specs.declared.syntax.StepKind.TheVariants.{Rows as RowsKind};
ghost use Rattle.plan_sql.specs.declared.bounds.Bound.{Bound as BoundValue};
ghost use Rattle.sql_steps.specs.Variables.{covers, key_variables, variables_of};
ghost use Rattle.sql_steps.specs.Steps.{rows_of_atom};
ghost use Rattle.plan_sql.specs.Statement.{completes, far_columns, far_steps, first_of, guard_for, looked_steps, near_steps, one_step, rows_part, step, two_steps};

use crate::bounds::Bound;
use crate::levels::{Level, push_step};
use cqa_value::{Items, NoMemory};
use sql_steps::{Part, Shape, ascending, covers, joined, rows_of_atom, within};
use sql_text::{Body, Step, StepKind, Within};
use std::alloc::Global;

/// Appends the step of the values of these variables in the rows of an atom, joined with these parts.
fn push_one(
    alloc: Global,
    shape: &Shape<'_>,
    number: usize,
    atom: u32,
    only: &[Within],
    parts: &[Part],
    vs: &[u32],
    steps: &mut Items<Step>,
) -> Result<(), NoMemory>
    requires { atom < length shape.now.query.now.atoms }
    ensures { OnOk result (steps.new ≡ steps.old ++ one_step shape.now.query.now number atom only.now parts.now vs.now) }
{
    let select = rows_of_atom(alloc, shape, atom, only, parts, vs)?;
    let body = Body::Distinct(select);
    push_step(alloc, StepKind::Blocks, number, vs, body, steps)
}

/// The variables of one atom that are asked for, or by which its rows are joined with those of another.
fn far_columns(
    alloc: Global,
    shape: &Shape<'_>,
    near: &Bound,
    far: &Bound,
    vs: &[u32],
) -> Result<Items<u32>, NoMemory>
    requires near { near.now.atom < length shape.now.query.now.atoms }
    requires far { far.now.atom < length shape.now.query.now.atoms }
    ensures { IfOk result (λ list. list ≡ far_columns shape.now.query.now near.now far.now vs.now) }
{
    let wanted = joined(alloc, vs, shape.of(near.atom))?;
    let columns = within(alloc, shape.of(far.atom), wanted.as_slice())?;
    ascending(alloc, columns.as_slice())
}

/// The step at a place, as what rows are joined with.
fn rows_parts(
    alloc: Global,
    number: usize,
    place: usize,
    columns: Items<u32>,
) -> Result<Items<Part>, NoMemory>
    ensures { IfOk result (λ parts. parts ≡ rows_part number place columns ∷ []) }
{
    let mut parts = Items::new(alloc);
    let rows = Part {
        number,
        step: place,
        columns,
        keys: Items::new(alloc),
        single: false,
        rare: false,
    };
    match parts.push(rows) {
        Ok(()) => Ok(parts),
        Err(refused) => {
            drop(parts);
            Err(refused)
        }
    }
}

/// Appends the step of these columns of an atom's rows.
fn push_far(
    alloc: Global,
    shape: &Shape<'_>,
    number: usize,
    far: &Bound,
    columns: &[u32],
    steps: &mut Items<Step>,
) -> Result<(), NoMemory>
    requires { far.now.atom < length shape.now.query.now.atoms }
    ensures { OnOk result (steps.new ≡ steps.old ++ step RowsKind number columns.now (DistinctBody (rows_of_atom shape.now.query.now far.now.atom far.now.only [] columns.now)) ∷ []) }
{
    let select = rows_of_atom(alloc, shape, far.atom, far.only.as_slice(), &[], columns)?;
    let body = Body::Distinct(select);
    push_step(alloc, StepKind::Rows, number, columns, body, steps)
}

/// Appends the steps of the values of these variables in the rows of two atoms that are joined.
fn push_two(
    alloc: Global,
    shape: &Shape<'_>,
    number: usize,
    near: &Bound,
    far: &Bound,
    vs: &[u32],
    steps: &mut Items<Step>,
) -> Result<(), NoMemory>
    requires near { near.now.atom < length shape.now.query.now.atoms }
    requires far { far.now.atom < length shape.now.query.now.atoms }
    ensures { OnOk result (steps.new ≡ steps.old ++ two_steps shape.now.query.now number near.now far.now vs.now (length steps.old)) }
{
    let place = steps.len();
    let columns = far_columns(alloc, shape, near, far, vs)?;
    push_far(alloc, shape, number, far, columns.as_slice(), steps)?;
    let parts = rows_parts(alloc, number, place, columns)?;
    let only = near.only.as_slice();
    let pushed = push_one(
        alloc,
        shape,
        number,
        near.atom,
        only,
        parts.as_slice(),
        vs,
        steps,
    );
    drop(parts);
    pushed
}

/// Whether an atom has the key of another, and these variables together with it.
fn completes(
    alloc: Global,
    shape: &Shape<'_>,
    near: &Bound,
    vs: &[u32],
    far: &Bound,
) -> Result<bool, NoMemory>
    requires near { near.now.atom < length shape.now.query.now.atoms }
    requires far { far.now.atom < length shape.now.query.now.atoms }
    ensures { IfOk result (λ is. is ≡ completes shape.now.query.now near.now vs.now far.now) }
{
    let keys = shape.key_variables(alloc, near.atom)?;
    let both = joined(alloc, shape.of(far.atom), shape.of(near.atom))?;
    Ok(covers(shape.of(far.atom), keys.as_slice()) && covers(both.as_slice(), vs))
}

/// Appends the steps that look for the values of these variables in the rows of an atom before and those of the atom that
/// completes it, and tells whether there is one.
fn push_by_near(
    alloc: Global,
    shape: &Shape<'_>,
    level: &Level<'_>,
    near: &Bound,
    vs: &[u32],
    steps: &mut Items<Step>,
) -> Result<bool, NoMemory>
    requires near { near.now.atom < length shape.now.query.now.atoms }
    requires bounds { All (λ (b : BoundValue). b.atom < length shape.now.query.now.atoms) level.now.bounds.now }
    ensures steps { OnOk result (steps.new ≡ steps.old ++ unwrap_or (far_steps shape.now.query.now level.now.number vs.now (length steps.old) near.now (first_of (λ (b : BoundValue). completes shape.now.query.now near.now vs.now b) level.now.bounds.now)) []) }
    ensures found { IfOk result (λ is. is ≡ is_some (far_steps shape.now.query.now level.now.number vs.now (length steps.old) near.now (first_of (λ (b : BoundValue). completes shape.now.query.now near.now vs.now b) level.now.bounds.now))) }
{
    for far in level.bounds {
        if completes(alloc, shape, near, vs, far)? {
            push_two(alloc, shape, level.number, near, far, vs, steps)?;
            return Ok(true);
        }
    }
    Ok(false)
}

/// Whether an atom before has each of these variables.
fn guards(shape: &Shape<'_>, bound: &Bound, vs: &[u32]) -> bool
    requires { bound.now.atom < length shape.now.query.now.atoms }
    ensures { result ≡ covers (variables_of shape.now.query.now bound.now.atom) vs.now }
{
    covers(shape.of(bound.atom), vs)
}

/// Appends the steps that look for the values of these variables in the rows of two atoms before, and tells whether there are
/// such atoms.
fn push_by_key(
    alloc: Global,
    shape: &Shape<'_>,
    level: &Level<'_>,
    keys: &[u32],
    vs: &[u32],
    steps: &mut Items<Step>,
) -> Result<bool, NoMemory>
    requires atom { level.now.atom < length shape.now.query.now.atoms }
    requires keys { keys.now ≡ key_variables shape.now.query.now level.now.atom }
    requires bounds { All (λ (b : BoundValue). b.atom < length shape.now.query.now.atoms) level.now.bounds.now }
    ensures steps { OnOk result (steps.new ≡ steps.old ++ unwrap_or (near_steps shape.now.query.now level.now.number level.now.bounds.now vs.now (length steps.old) (guard_for shape.now.query.now level.now.bounds.now (key_variables shape.now.query.now level.now.atom))) []) }
    ensures found { IfOk result (λ is. is ≡ is_some (near_steps shape.now.query.now level.now.number level.now.bounds.now vs.now (length steps.old) (guard_for shape.now.query.now level.now.bounds.now (key_variables shape.now.query.now level.now.atom)))) }
{
    for near in level.bounds {
        if guards(shape, near, keys) {
            return push_by_near(alloc, shape, level, near, vs, steps);
        }
    }
    Ok(false)
}

/// Appends the steps that look for the values of these variables in the rows of an atom before that has all of them, or of two
/// that are joined, and tells whether there are such atoms.
pub(crate) fn push_looked(
    alloc: Global,
    shape: &Shape<'_>,
    level: &Level<'_>,
    vs: &[u32],
    steps: &mut Items<Step>,
) -> Result<bool, NoMemory>
    requires atom { level.now.atom < length shape.now.query.now.atoms }
    requires bounds { All (λ (b : BoundValue). b.atom < length shape.now.query.now.atoms) level.now.bounds.now }
    ensures steps { OnOk result (steps.new ≡ steps.old ++ unwrap_or (looked_steps shape.now.query.now level.now.number level.now.atom level.now.bounds.now vs.now (length steps.old) (guard_for shape.now.query.now level.now.bounds.now vs.now)) []) }
    ensures found { IfOk result (λ is. is ≡ is_some (looked_steps shape.now.query.now level.now.number level.now.atom level.now.bounds.now vs.now (length steps.old) (guard_for shape.now.query.now level.now.bounds.now vs.now))) }
{
    for bound in level.bounds {
        if guards(shape, bound, vs) {
            let only = bound.only.as_slice();
            push_one(alloc, shape, level.number, bound.atom, only, &[], vs, steps)?;
            return Ok(true);
        }
    }
    let keys = shape.key_variables(alloc, level.atom)?;
    push_by_key(alloc, shape, level, keys.as_slice(), vs, steps)
}
