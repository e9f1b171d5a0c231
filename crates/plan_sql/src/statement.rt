//! The steps of a plan, and its query.

ghost use Rattle.std.specs.Prelude.{◌≡◌, ◌+◌, ◌^◌, ◌∷◌, ◌<◌, ◌≤◌, [], IfOk, OnOk, All, length, map};
ghost use Rattle.cqa_model.specs.Plan.{IsPlanOf};
ghost use Rattle.sql_text.specs.declared.syntax.Child.{Child as ChildValue};
ghost use Rattle.plan_sql.specs.declared.bounds.Bound.{Bound as BoundValue};
ghost use Rattle.sql_text.specs.Named.{IsNamed};
ghost use Rattle.plan_sql.specs.Laws.{IsExactSql, ShowsOnce};
ghost use Rattle.sql_steps.specs.Shapes.{AreAtoms};
ghost use Rattle.sql_steps.specs.Variables.{answer_variables};
ghost use Rattle.sql_steps.specs.Steps.{cells_of, children_of, known_of, on_of};
ghost use Rattle.plan_sql.specs.Statement.{last_select, made_behind, made_later, made_of, sql_of};

use crate::bounds::{Bound, next_bounds, push_asked};
use crate::levels::{Level, with_level};
use cqa_model::{Plan, Query};
use cqa_value::{Items, NoMemory};
use sql_steps::{
    Joined, Part, Shape, append_listed, append_on, cells_of, joined, joined_parts, shape_of,
};
use sql_text::{Cmp, Select, Sql, Step};
use std::alloc::Global;

/// The query of a plan: over each database that the query fits, it has exactly the certain rows.
///
/// # Errors
///
/// `NoMemory` where memory is refused.
pub fn sql_of(alloc: Global, query: &Query, plan: &Plan) -> Result<Sql, NoMemory>
    requires { IsPlanOf query.now plan.now.order }
    ensures is { IfOk result (λ sql. sql ≡ sql_of query.now plan.now.order) }
    // Over each database that the query fits, of any size, it means exactly the certain rows.
    ensures exact { IfOk result (IsExactSql query.now) }
    // Its names say what its places mean.
    ensures named { IfOk result (IsNamed query.now) }
    // It shows each row once.
    ensures once { IfOk result (ShowsOnce query.now) }
{
    let shape = shape_of(alloc, query)?;
    let answer = shape.answer_variables(alloc)?;
    sql_of_answer(alloc, &shape, answer.as_slice(), plan.order.as_slice())
}

/// The query of a plan whose answer has these variables.
fn sql_of_answer(
    alloc: Global,
    shape: &Shape<'_>,
    answer: &[u32],
    plan: &[u32],
) -> Result<Sql, NoMemory>
    requires answer { answer.now ≡ answer_variables shape.now.query.now }
    requires plan { AreAtoms shape.now.query.now plan.now }
    requires number { 1 + length plan.now ≤ 2 ^ 63 }
    ensures { IfOk result (λ sql. sql ≡ sql_of shape.now.query.now plan.now) }
{
    let mut steps = Items::new(alloc);
    match push_all(alloc, shape, answer, plan, &mut steps) {
        Ok(last) => Ok(Sql { steps, last }),
        Err(refused) => {
            drop(steps);
            Err(refused)
        }
    }
}

/// Appends all steps of a plan, and has the select over them.
fn push_all(
    alloc: Global,
    shape: &Shape<'_>,
    answer: &[u32],
    plan: &[u32],
    steps: &mut Items<Step>,
) -> Result<Select, NoMemory>
    requires answer { answer.now ≡ answer_variables shape.now.query.now }
    requires plan { AreAtoms shape.now.query.now plan.now }
    requires number { 1 + length plan.now ≤ 2 ^ 63 }
    ensures steps { OnOk result (steps.new ≡ (made_of shape.now.query.now 1 answer.now [] steps.old plan.now).steps) }
    ensures last { IfOk result (λ select. select ≡ last_select shape.now.query.now (made_of shape.now.query.now 1 answer.now [] steps.old plan.now).parts) }
{
    let parts = push_made(alloc, shape, 1, answer, &[], plan, steps)?;
    let last = last_select(alloc, answer, parts.as_slice());
    drop(parts);
    last
}

/// The comparisons of the parts with one another.
fn on_of(alloc: Global, joined: &Joined) -> Result<Items<Cmp>, NoMemory>
    ensures { IfOk result (λ all. all ≡ on_of joined.now.children) }
{
    let mut all = Items::new(alloc);
    match append_on(alloc, joined.children.as_slice(), &mut all) {
        Ok(()) => Ok(all),
        Err(refused) => {
            drop(all);
            Err(refused)
        }
    }
}

/// The answer columns, for a row of each of these sources.
fn answer_select(alloc: Global, answer: &[u32], joined: &Joined) -> Result<Select, NoMemory>
    ensures { IfOk result (λ select. select ≡ record { cells = cells_of joined.now.known answer.now; sources = map (λ (c : ChildValue). c.listed) joined.now.children; all = on_of joined.now.children; only = [] }) }
{
    let cells = cells_of(alloc, joined.known.as_slice(), answer)?;
    let mut sources = Items::new(alloc);
    append_listed(joined.children.as_slice(), &mut sources)?;
    let all = on_of(alloc, joined)?;
    Ok(Select {
        cells,
        sources,
        all,
        only: Items::new(alloc),
    })
}

/// The answer columns, for a context of each part.
fn last_select(alloc: Global, answer: &[u32], parts: &[Part]) -> Result<Select, NoMemory>
    ensures { IfOk result (λ select. select ≡ record { cells = cells_of (known_of 0 parts.now []) answer.now; sources = map (λ (c : ChildValue). c.listed) (children_of 0 parts.now []); all = on_of (children_of 0 parts.now []); only = [] }) }
{
    let joined = joined_parts(alloc, 0, parts, &[])?;
    let select = answer_select(alloc, answer, &joined);
    drop(joined);
    select
}

/// Appends the steps of the atoms of a plan, where these variables are known before them, and these atoms are before them; has
/// their parts.
#[cycle(steps)]
fn push_made(
    alloc: Global,
    shape: &Shape<'_>,
    number: usize,
    known: &[u32],
    bounds: &[Bound],
    plan: &[u32],
    steps: &mut Items<Step>,
) -> Result<Items<Part>, NoMemory>
    requires plan { AreAtoms shape.now.query.now plan.now }
    requires bounds { All (λ (b : BoundValue). b.atom < length shape.now.query.now.atoms) bounds.now }
    requires number { number + length plan.now ≤ 2 ^ 63 }
    ensures steps { OnOk result (steps.new ≡ (made_of shape.now.query.now number known.now bounds.now steps.old plan.now).steps) }
    ensures parts { IfOk result (λ parts. parts ≡ (made_of shape.now.query.now number known.now bounds.now steps.old plan.now).parts) }
{
    let Some((atom, later)) = plan.split_first() else {
        return Ok(Items::new(alloc));
    };
    let only = push_asked(alloc, shape, number, *atom, bounds, steps)?;
    let only = only.as_slice();
    let atom = *atom;
    let level = Level {
        number,
        atom,
        only,
        bounds,
    };
    push_from(alloc, shape, &level, known, plan, later, steps)
}

/// Appends the steps of an atom, behind those that ask for its keys, and of the atoms after it; has their parts.
#[cycle(steps)]
fn push_from(
    alloc: Global,
    shape: &Shape<'_>,
    level: &Level<'_>,
    known: &[u32],
    plan: &[u32],
    later: &[u32],
    steps: &mut Items<Step>,
) -> Result<Items<Part>, NoMemory>
    requires plan { AreAtoms shape.now.query.now plan.now }
    requires first { plan.now ≡ level.now.atom ∷ later.now }
    requires bounds { All (λ (b : BoundValue). b.atom < length shape.now.query.now.atoms) level.now.bounds.now }
    requires number { level.now.number + length plan.now ≤ 2 ^ 63 }
    ensures steps { OnOk result (steps.new ≡ (made_behind shape.now.query.now level.now.number known.now level.now.bounds.now level.now.only.now level.now.atom steps.old later.now).steps) }
    ensures parts { IfOk result (λ parts. parts ≡ (made_behind shape.now.query.now level.now.number known.now level.now.bounds.now level.now.only.now level.now.atom steps.old later.now).parts) }
{
    let parts = push_later(alloc, shape, level, known, later, steps)?;
    let around = with_level(alloc, shape, level, known, parts.as_slice(), steps);
    drop(parts);
    around
}

/// Appends the steps of the atoms after the one at hand; has their parts.
#[cycle(steps)]
fn push_later(
    alloc: Global,
    shape: &Shape<'_>,
    level: &Level<'_>,
    known: &[u32],
    later: &[u32],
    steps: &mut Items<Step>,
) -> Result<Items<Part>, NoMemory>
    requires atom { level.now.atom < length shape.now.query.now.atoms }
    requires later { AreAtoms shape.now.query.now later.now }
    requires bounds { All (λ (b : BoundValue). b.atom < length shape.now.query.now.atoms) level.now.bounds.now }
    requires number { level.now.number + 1 + length later.now ≤ 2 ^ 63 }
    ensures steps { OnOk result (steps.new ≡ (made_later shape.now.query.now level.now.number known.now level.now.bounds.now level.now.only.now level.now.atom steps.old later.now).steps) }
    ensures parts { IfOk result (λ parts. parts ≡ (made_later shape.now.query.now level.now.number known.now level.now.bounds.now level.now.only.now level.now.atom steps.old later.now).parts) }
{
    let next = next_bounds(alloc, shape, level.bounds, level.atom, level.only)?;
    let known = match joined(alloc, known, shape.of(level.atom)) {
        Ok(known) => known,
        Err(refused) => {
            drop(next);
            return Err(refused);
        }
    };
    let parts = push_made(
        alloc,
        shape,
        level.number + 1,
        known.as_slice(),
        next.as_slice(),
        later,
        steps,
    );
    drop(next);
    parts
}
