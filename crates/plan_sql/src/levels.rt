//! The steps of an atom, where parts hang on it.

ghost use Rattle.std.specs.Prelude.{◌≡◌, ◌++◌, ◌∷◌, ◌<◌, ◌-◌, ◌||◌, [], IfOk, OnOk, All, false, flat_map, length};
ghost use Rattle.std.specs.List.{list_any};
ghost use Rattle.cqa_model.specs.declared.query.Cond.{Cond as CondValue};
ghost use Rattle.sql_text.specs.declared.syntax.Body.TheVariants.{Distinct as DistinctBody, Grouped as GroupedBody};
ghost use Rattle.sql_text.specs.declared.syntax.StepKind.TheVariants.{Holds as HoldsKind};
ghost use Rattle.plan_sql.specs.declared.bounds.Bound.{Bound as BoundValue};
ghost use Rattle.sql_steps.specs.declared.part.Part.{Part as PartValue};
ghost use Rattle.sql_steps.specs.Variables.{ascending, key_variables, variables_of};
ghost use Rattle.sql_steps.specs.Steps.{are_single, block_group, context_group, rows_of_atom};
ghost use Rattle.plan_sql.specs.Statement.{behind_steps, block_of, block_steps, by_block, context_of, few_step, guard_for, is_guarded, is_value_test, keys_in, level_steps, looked_steps, step, with_level};

use crate::bounds::{Bound, keys_in};
use crate::few::{few_only, has_few, is_rare};
use crate::looked::push_looked;
use cqa_value::{Items, NoMemory};
use sql_steps::{
    Part, Shape, append_beside, are_single, ascending, block_group, context_group, covers, hanging,
    joined, rows_of_atom, within, without,
};
use sql_text::{Body, Group, Step, StepKind, Within};
use std::alloc::Global;

/// An atom at hand: its number in the plan, its place in the query, the columns whose values are in steps, and the atoms
/// before it.
#[derive(Clone, Copy)]
pub(crate) struct Level<'o> {
    pub number: usize,
    pub atom: u32,
    pub only: &'o [Within],
    pub bounds: &'o [Bound],
}

/// Appends a step.
pub(crate) fn push_step(
    alloc: Global,
    kind: StepKind,
    level: usize,
    columns: &[u32],
    body: Body,
    steps: &mut Items<Step>,
) -> Result<(), NoMemory>
    ensures { OnOk result (steps.new ≡ steps.old ++ step kind level columns.now body ∷ []) }
{
    match Items::from_slice(alloc, columns) {
        Ok(columns) => steps.push(Step {
            kind,
            level,
            columns,
            body,
        }),
        Err(refused) => {
            drop(body);
            Err(refused)
        }
    }
}

/// The variables of an atom, and then those of these parts.
fn part_variables(alloc: Global, vs: &[u32], parts: &[Part]) -> Result<Items<u32>, NoMemory>
    ensures { IfOk result (λ list. list ≡ vs.now ++ flat_map (λ (p : PartValue). p.columns) parts.now) }
{
    let mut list = Vec::from_slice(alloc, vs)?;
    for part in parts {
        list.extend_from_slice(part.columns.as_slice())?;
    }
    Ok(Items::from_vec(list))
}

/// The variables of a context of the part that an atom is the first one of.
fn context_of(
    alloc: Global,
    shape: &Shape<'_>,
    known: &[u32],
    atom: u32,
    parts: &[Part],
) -> Result<Items<u32>, NoMemory>
    requires { atom < length shape.now.query.now.atoms }
    ensures { IfOk result (λ list. list ≡ context_of shape.now.query.now known.now atom parts.now) }
{
    let all = part_variables(alloc, shape.of(atom), parts)?;
    let context = within(alloc, all.as_slice(), known)?;
    ascending(alloc, context.as_slice())
}

/// A context's variables, and those of an atom's key.
fn block_of(
    alloc: Global,
    shape: &Shape<'_>,
    atom: u32,
    context: &[u32],
) -> Result<Items<u32>, NoMemory>
    requires { atom < length shape.now.query.now.atoms }
    ensures { IfOk result (λ list. list ≡ block_of shape.now.query.now atom context.now) }
{
    let keys = shape.key_variables(alloc, atom)?;
    let keys = ascending(alloc, keys.as_slice())?;
    let others = without(alloc, keys.as_slice(), context)?;
    joined(alloc, context, others.as_slice())
}

/// The contexts of blocks: the one of all rows, where each row has one at most, or else those that all rows share.
fn by_block(single: bool, group: Group) -> Body
    ensures { result ≡ by_block single group }
{
    if single {
        Body::Grouped(group)
    } else {
        Body::Shared(group)
    }
}

/// Appends the step of the contexts in which the part holds, by the atom's blocks.
fn push_groups(
    alloc: Global,
    shape: &Shape<'_>,
    level: &Level<'_>,
    context: &[u32],
    parts: &[Part],
    single: bool,
    steps: &mut Items<Step>,
) -> Result<(), NoMemory>
    requires { level.now.atom < length shape.now.query.now.atoms }
    ensures { OnOk result (steps.new ≡ steps.old ++ step HoldsKind level.now.number context.now (by_block single (block_group shape.now.query.now level.now.atom level.now.only.now parts.now context.now)) ∷ []) }
{
    let group = block_group(alloc, shape, level.atom, level.only, parts, context)?;
    let body = by_block(single, group);
    push_step(alloc, StepKind::Holds, level.number, context, body, steps)
}

/// Appends the steps of the keys of the few blocks that can hold, and of the contexts in which the part holds.
fn push_few_groups(
    alloc: Global,
    shape: &Shape<'_>,
    level: &Level<'_>,
    context: &[u32],
    parts: &[Part],
    single: bool,
    steps: &mut Items<Step>,
) -> Result<(), NoMemory>
    requires { level.now.atom < length shape.now.query.now.atoms }
    ensures { OnOk result (steps.new ≡ (steps.old ++ few_step shape.now.query.now level.now.number level.now.atom level.now.only.now parts.now ∷ [])
        ++ step HoldsKind level.now.number context.now (by_block single (block_group shape.now.query.now level.now.atom (keys_in shape.now.query.now level.now.atom (length steps.old) (ascending (key_variables shape.now.query.now level.now.atom))) parts.now context.now)) ∷ []) }
{
    let place = steps.len();
    let keys = shape.key_variables(alloc, level.atom)?;
    let keys = ascending(alloc, keys.as_slice())?;
    push_few(alloc, shape, level, keys.as_slice(), parts, steps)?;
    let only = keys_in(alloc, shape, level.atom, place, keys.as_slice())?;
    let number = level.number;
    let atom = level.atom;
    let only = only.as_slice();
    let bounds = level.bounds;
    let level = Level {
        number,
        atom,
        only,
        bounds,
    };
    push_groups(alloc, shape, &level, context, parts, single, steps)
}

/// Appends the step of the keys, of these variables, of the few blocks of an atom that can hold.
fn push_few(
    alloc: Global,
    shape: &Shape<'_>,
    level: &Level<'_>,
    keys: &[u32],
    parts: &[Part],
    steps: &mut Items<Step>,
) -> Result<(), NoMemory>
    requires atom { level.now.atom < length shape.now.query.now.atoms }
    requires keys { keys.now ≡ ascending (key_variables shape.now.query.now level.now.atom) }
    ensures { OnOk result (steps.new ≡ steps.old ++ few_step shape.now.query.now level.now.number level.now.atom level.now.only.now parts.now ∷ []) }
{
    let only = few_only(alloc, shape, level.atom, level.only, parts)?;
    let only = only.as_slice();
    let select = rows_of_atom(alloc, shape, level.atom, only, &[], keys)?;
    let body = Body::Distinct(select);
    push_step(alloc, StepKind::Blocks, level.number, keys, body, steps)
}

/// Appends the step of the contexts in which the part holds, by the atom's rows that fit, joined with the parts.
fn push_rows(
    alloc: Global,
    shape: &Shape<'_>,
    level: &Level<'_>,
    context: &[u32],
    parts: &[Part],
    steps: &mut Items<Step>,
) -> Result<(), NoMemory>
    requires { level.now.atom < length shape.now.query.now.atoms }
    ensures { OnOk result (steps.new ≡ steps.old ++ step HoldsKind level.now.number context.now (DistinctBody (rows_of_atom shape.now.query.now level.now.atom level.now.only.now parts.now context.now)) ∷ []) }
{
    let select = rows_of_atom(alloc, shape, level.atom, level.only, parts, context)?;
    let body = Body::Distinct(select);
    push_step(alloc, StepKind::Holds, level.number, context, body, steps)
}

/// Appends the step of the contexts in which the part holds, by the blocks for each context that the last step has.
fn push_context_groups(
    alloc: Global,
    shape: &Shape<'_>,
    level: &Level<'_>,
    block: &[u32],
    context: &[u32],
    parts: &[Part],
    steps: &mut Items<Step>,
) -> Result<(), NoMemory>
    requires { level.now.atom < length shape.now.query.now.atoms }
    ensures { OnOk result (steps.new ≡ steps.old ++ step HoldsKind level.now.number context.now (GroupedBody (context_group shape.now.query.now level.now.atom (length steps.old - 1) block.now parts.now context.now)) ∷ []) }
{
    let place = steps.len().saturating_sub(1);
    let group = context_group(alloc, shape, level.atom, place, block, parts, context)?;
    let body = Body::Grouped(group);
    push_step(alloc, StepKind::Holds, level.number, context, body, steps)
}

/// Whether an atom before has each of these variables.
fn is_guarded(shape: &Shape<'_>, bounds: &[Bound], vs: &[u32]) -> bool
    requires { All (λ (b : BoundValue). b.atom < length shape.now.query.now.atoms) bounds.now }
    ensures { result ≡ is_guarded shape.now.query.now bounds.now vs.now }
{
    for bound in bounds {
        if covers(shape.of(bound.atom), vs) {
            return true;
        }
    }
    false
}

/// Appends the steps of the contexts in which the part holds, by the atom's blocks. Where few of them can hold, their keys are
/// looked for first.
fn push_by_block(
    alloc: Global,
    shape: &Shape<'_>,
    level: &Level<'_>,
    context: &[u32],
    parts: &[Part],
    single: bool,
    steps: &mut Items<Step>,
) -> Result<(), NoMemory>
    requires { level.now.atom < length shape.now.query.now.atoms }
    ensures { OnOk result (steps.new ≡ steps.old ++ block_steps shape.now.query.now level.now.number level.now.atom context.now level.now.only.now level.now.bounds.now parts.now (length steps.old) single) }
{
    if has_few(shape, level.bounds, level.atom, parts) {
        push_few_groups(alloc, shape, level, context, parts, single, steps)
    } else {
        push_groups(alloc, shape, level, context, parts, single, steps)
    }
}

/// Appends the steps of the contexts with an atom's key, of these variables, that are looked for, and of those that hold; or of
/// those that all rows of a block share.
fn push_blocks(
    alloc: Global,
    shape: &Shape<'_>,
    level: &Level<'_>,
    block: &[u32],
    context: &[u32],
    parts: &[Part],
    steps: &mut Items<Step>,
) -> Result<(), NoMemory>
    requires atom { level.now.atom < length shape.now.query.now.atoms }
    requires bounds { All (λ (b : BoundValue). b.atom < length shape.now.query.now.atoms) level.now.bounds.now }
    requires block { block.now ≡ block_of shape.now.query.now level.now.atom context.now }
    ensures { OnOk result (steps.new ≡ steps.old ++ behind_steps shape.now.query.now level.now.number level.now.atom context.now level.now.only.now level.now.bounds.now parts.now (length steps.old)
        (looked_steps shape.now.query.now level.now.number level.now.atom level.now.bounds.now block.now (length steps.old) (guard_for shape.now.query.now level.now.bounds.now block.now))) }
{
    if push_looked(alloc, shape, level, block, steps)? {
        push_context_groups(alloc, shape, level, block, context, parts, steps)
    } else {
        push_by_block(alloc, shape, level, context, parts, false, steps)
    }
}

/// Appends the steps of an atom where a part can have two contexts for a row.
fn push_contexts(
    alloc: Global,
    shape: &Shape<'_>,
    level: &Level<'_>,
    context: &[u32],
    parts: &[Part],
    steps: &mut Items<Step>,
) -> Result<(), NoMemory>
    requires atom { level.now.atom < length shape.now.query.now.atoms }
    requires bounds { All (λ (b : BoundValue). b.atom < length shape.now.query.now.atoms) level.now.bounds.now }
    requires several { are_single (variables_of shape.now.query.now level.now.atom) parts.now ≡ false }
    ensures { OnOk result (steps.new ≡ steps.old ++ level_steps shape.now.query.now level.now.number level.now.atom context.now level.now.only.now level.now.bounds.now parts.now (length steps.old)) }
{
    let block = block_of(alloc, shape, level.atom, context)?;
    let block = block.as_slice();
    if shape.is_strict(level.atom) && !is_guarded(shape, level.bounds, block) {
        return push_rows(alloc, shape, level, context, parts, steps);
    }
    push_blocks(alloc, shape, level, block, context, parts, steps)
}

/// Appends the steps of an atom, where these parts hang on it.
fn push_level(
    alloc: Global,
    shape: &Shape<'_>,
    level: &Level<'_>,
    context: &[u32],
    single: bool,
    parts: &[Part],
    steps: &mut Items<Step>,
) -> Result<(), NoMemory>
    requires atom { level.now.atom < length shape.now.query.now.atoms }
    requires bounds { All (λ (b : BoundValue). b.atom < length shape.now.query.now.atoms) level.now.bounds.now }
    requires single { single ≡ are_single (variables_of shape.now.query.now level.now.atom) parts.now }
    ensures { OnOk result (steps.new ≡ steps.old ++ level_steps shape.now.query.now level.now.number level.now.atom context.now level.now.only.now level.now.bounds.now parts.now (length steps.old)) }
{
    if !single {
        push_contexts(alloc, shape, level, context, parts, steps)
    } else if shape.is_strict(level.atom) {
        push_rows(alloc, shape, level, context, parts, steps)
    } else {
        push_by_block(alloc, shape, level, context, parts, true, steps)
    }
}

/// Appends the steps of an atom where these parts hang on it, and says which part they are.
fn push_part(
    alloc: Global,
    shape: &Shape<'_>,
    level: &Level<'_>,
    known: &[u32],
    parts: &[Part],
    steps: &mut Items<Step>,
) -> Result<Part, NoMemory>
    requires atom { level.now.atom < length shape.now.query.now.atoms }
    requires bounds { All (λ (b : BoundValue). b.atom < length shape.now.query.now.atoms) level.now.bounds.now }
    ensures steps { OnOk result (steps.new ≡ steps.old ++ level_steps shape.now.query.now level.now.number level.now.atom (context_of shape.now.query.now known.now level.now.atom parts.now) level.now.only.now level.now.bounds.now parts.now (length steps.old)) }
    ensures part { IfOk result (λ part. part ≡ record {
      number = level.now.number;
      step = length steps.new - 1;
      columns = context_of shape.now.query.now known.now level.now.atom parts.now;
      keys = key_variables shape.now.query.now level.now.atom;
      single = are_single (variables_of shape.now.query.now level.now.atom) parts.now;
      rare = list_any (λ (k : CondValue). is_value_test level.now.atom k) shape.now.query.now.conds || list_any (λ (p : PartValue). p.rare) parts.now;
    }) }
{
    let single = are_single(alloc, shape.of(level.atom), parts)?;
    let columns = context_of(alloc, shape, known, level.atom, parts)?;
    let keys = shape.key_variables(alloc, level.atom)?;
    push_level(
        alloc,
        shape,
        level,
        columns.as_slice(),
        single,
        parts,
        steps,
    )?;
    Ok(Part {
        number: level.number,
        step: steps.len().saturating_sub(1),
        columns,
        keys,
        single,
        rare: is_rare(shape, level.atom, parts),
    })
}

/// Appends an atom's part and the parts beside it.
fn append_around(
    alloc: Global,
    shape: &Shape<'_>,
    level: &Level<'_>,
    known: &[u32],
    later: &[Part],
    steps: &mut Items<Step>,
    list: &mut Items<Part>,
) -> Result<(), NoMemory>
    requires atom { level.now.atom < length shape.now.query.now.atoms }
    requires bounds { All (λ (b : BoundValue). b.atom < length shape.now.query.now.atoms) level.now.bounds.now }
    ensures steps { OnOk result (steps.new ≡ (with_level shape.now.query.now level.now.number known.now level.now.bounds.now level.now.only.now level.now.atom (record { steps = steps.old; parts = later.now })).steps) }
    ensures parts { OnOk result (list.new ≡ list.old ++ (with_level shape.now.query.now level.now.number known.now level.now.bounds.now level.now.only.now level.now.atom (record { steps = steps.old; parts = later.now })).parts) }
{
    let parts = hanging(alloc, shape, known, level.atom, later)?;
    let part = push_part(alloc, shape, level, known, parts.as_slice(), steps);
    drop(parts);
    list.push(part?)?;
    append_beside(alloc, shape, known, level.atom, later, list)
}

/// Appends the steps of an atom: the parts that hang on it, and it, become one part.
pub(crate) fn with_level(
    alloc: Global,
    shape: &Shape<'_>,
    level: &Level<'_>,
    known: &[u32],
    later: &[Part],
    steps: &mut Items<Step>,
) -> Result<Items<Part>, NoMemory>
    requires atom { level.now.atom < length shape.now.query.now.atoms }
    requires bounds { All (λ (b : BoundValue). b.atom < length shape.now.query.now.atoms) level.now.bounds.now }
    ensures steps { OnOk result (steps.new ≡ (with_level shape.now.query.now level.now.number known.now level.now.bounds.now level.now.only.now level.now.atom (record { steps = steps.old; parts = later.now })).steps) }
    ensures parts { IfOk result (λ parts. parts ≡ (with_level shape.now.query.now level.now.number known.now level.now.bounds.now level.now.only.now level.now.atom (record { steps = steps.old; parts = later.now })).parts) }
{
    let mut list = Items::new(alloc);
    match append_around(alloc, shape, level, known, later, steps, &mut list) {
        Ok(()) => Ok(list),
        Err(refused) => {
            drop(list);
            Err(refused)
        }
    }
}
