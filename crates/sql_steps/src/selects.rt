//! The rows of an atom: the comparisons by which they are in a block and fit, and their select.

ghost use Rattle.std.specs.Prelude.{◌≡◌, ◌++◌, ◌∷◌, ◌<◌, [], IfOk, OnOk, length, map};
ghost use Rattle.sql_text.specs.declared.syntax.Child.{Child as ChildValue};
ghost use Rattle.sql_steps.specs.Steps.{cells_of, children_of, fit_on, fitted, keyed, known_of, member, on_of, others_of, rows_of_atom};

use crate::children::{Joined, joined_parts};
use crate::fitting::{Fitting, Known, cells_of};
use crate::part::Part;
use crate::shape::Shape;
use cqa_value::{Items, NoMemory};
use sql_text::{Alias, Child, Cmp, Listed, Select, Source, Within};
use std::alloc::Global;

/// The comparisons of a row of an atom on its key, those on its other columns, and what is known of it then.
#[derive(Drop)]
pub struct RowFit {
    pub key: Items<Cmp>,
    pub others: Items<Cmp>,
    pub known: Items<Known>,
}

/// An atom's table, as the first source.
pub(crate) fn member(atom: u32) -> Listed
    ensures { result ≡ member atom }
{
    Listed {
        source: Source::Table(atom),
        alias: Alias::Member,
    }
}

/// A row of an atom fits what is known, on the columns of its key.
///
/// # Errors
///
/// `NoMemory` where memory is refused.
pub fn keyed(
    alloc: Global,
    shape: &Shape<'_>,
    atom: u32,
    known: Items<Known>,
) -> Result<Fitting, NoMemory>
    requires { atom < length shape.now.query.now.atoms }
    ensures { IfOk result (λ fitting. fitting ≡ keyed shape.now.query.now atom known) }
{
    let mut fitting = Fitting {
        known,
        all: Items::new(alloc),
    };
    match fitting.fit_on(alloc, shape, atom, 0, shape.key(atom)) {
        Ok(()) => Ok(fitting),
        Err(refused) => {
            drop(fitting);
            Err(refused)
        }
    }
}

/// A row of an atom fits what is known, on the columns outside its key.
fn fitted(
    alloc: Global,
    shape: &Shape<'_>,
    atom: u32,
    known: Items<Known>,
) -> Result<Fitting, NoMemory>
    requires { atom < length shape.now.query.now.atoms }
    ensures { IfOk result (λ fitting. fitting ≡ fit_on shape.now.query.now atom 0 (others_of shape.now.query.now atom) (record { known = known; all = [] })) }
{
    let mut fitting = Fitting {
        known,
        all: Items::new(alloc),
    };
    match fit_others(alloc, shape, atom, &mut fitting) {
        Ok(()) => Ok(fitting),
        Err(refused) => {
            drop(fitting);
            Err(refused)
        }
    }
}

/// A row of an atom fits what is known, on the columns outside its key.
fn fit_others(
    alloc: Global,
    shape: &Shape<'_>,
    atom: u32,
    fitting: &mut Fitting,
) -> Result<(), NoMemory>
    requires { atom < length shape.now.query.now.atoms }
    ensures { OnOk result (fitting.new ≡ fit_on shape.now.query.now atom 0 (others_of shape.now.query.now atom) fitting.old) }
{
    let others = shape.others(alloc, atom)?;
    fitting.fit_on(alloc, shape, atom, 0, others.as_slice())
}

/// A row of an atom fits what is known, on its key and then on its other columns.
///
/// # Errors
///
/// `NoMemory` where memory is refused.
pub fn row_fit(
    alloc: Global,
    shape: &Shape<'_>,
    atom: u32,
    known: Items<Known>,
) -> Result<RowFit, NoMemory>
    requires { atom < length shape.now.query.now.atoms }
    ensures key { IfOk result (λ fit. fit.key ≡ (keyed shape.now.query.now atom known).all) }
    ensures others { IfOk result (λ fit. fit.others ≡ (fitted shape.now.query.now atom known).all) }
    ensures known { IfOk result (λ fit. fit.known ≡ (fitted shape.now.query.now atom known).known) }
{
    let Fitting { known, all: key } = keyed(alloc, shape, atom, known)?;
    match fitted(alloc, shape, atom, known) {
        Ok(fitting) => Ok(RowFit {
            key,
            others: fitting.all,
            known: fitting.known,
        }),
        Err(refused) => {
            drop(key);
            Err(refused)
        }
    }
}

/// Appends copies of comparisons.
fn append_cmps(alloc: Global, cmps: &[Cmp], all: &mut Items<Cmp>) -> Result<(), NoMemory>
    ensures { OnOk result (all.new ≡ all.old ++ cmps.now) }
{
    for cmp in cmps {
        all.push(copy_of(alloc, cmp)?)?;
    }
    Ok(())
}

/// A copy of a comparison.
fn copy_of(alloc: Global, cmp: &Cmp) -> Result<Cmp, NoMemory>
    ensures { IfOk result (λ copy. copy ≡ cmp.now) }
{
    match cmp {
        Cmp::Same { left, right } => Ok(Cmp::Same {
            left: *left,
            right: *right,
        }),
        Cmp::Test { cell, op, value } => {
            let value = value.copy(alloc)?;
            Ok(Cmp::Test {
                cell: *cell,
                op: *op,
                value,
            })
        }
    }
}

/// Appends the comparisons of children.
///
/// # Errors
///
/// `NoMemory` where memory is refused.
pub fn append_on(alloc: Global, children: &[Child], all: &mut Items<Cmp>) -> Result<(), NoMemory>
    ensures { OnOk result (all.new ≡ all.old ++ on_of children.now) }
{
    for child in children {
        append_cmps(alloc, child.on.as_slice(), all)?;
    }
    Ok(())
}

/// Appends the sources of children.
///
/// # Errors
///
/// `NoMemory` where memory is refused.
pub fn append_listed(children: &[Child], sources: &mut Items<Listed>) -> Result<(), NoMemory>
    ensures { OnOk result (sources.new ≡ sources.old ++ map (λ (c : ChildValue). c.listed) children.now) }
{
    for child in children {
        sources.push(child.listed)?;
    }
    Ok(())
}

/// Appends the comparisons of a row of an atom and of children.
fn append_all(
    alloc: Global,
    fit: &RowFit,
    children: &[Child],
    all: &mut Items<Cmp>,
) -> Result<(), NoMemory>
    ensures { OnOk result (all.new ≡ all.old ++ (fit.now.key ++ (fit.now.others ++ on_of children.now))) }
{
    append_cmps(alloc, fit.key.as_slice(), all)?;
    append_cmps(alloc, fit.others.as_slice(), all)?;
    append_on(alloc, children, all)
}

/// The comparisons of a row of an atom and of children.
fn all_of(alloc: Global, fit: &RowFit, children: &[Child]) -> Result<Items<Cmp>, NoMemory>
    ensures { IfOk result (λ all. all ≡ fit.now.key ++ (fit.now.others ++ on_of children.now)) }
{
    let mut all = Items::new(alloc);
    match append_all(alloc, fit, children, &mut all) {
        Ok(()) => Ok(all),
        Err(refused) => {
            drop(all);
            Err(refused)
        }
    }
}

/// The select of the rows of an atom that fit, joined with parts.
fn select_of(
    alloc: Global,
    atom: u32,
    only: &[Within],
    columns: &[u32],
    fit: &RowFit,
    joined: &Joined,
) -> Result<Select, NoMemory>
    ensures { IfOk result (λ select. select ≡ record {
      cells = cells_of joined.now.known columns.now;
      sources = member atom ∷ map (λ (c : ChildValue). c.listed) joined.now.children;
      all = fit.now.key ++ (fit.now.others ++ on_of joined.now.children);
      only = only.now;
    }) }
{
    let children = joined.children.as_slice();
    let cells = cells_of(alloc, joined.known.as_slice(), columns)?;
    let mut sources = Items::from_slice(alloc, &[member(atom)])?;
    append_listed(children, &mut sources)?;
    let only = Items::from_slice(alloc, only)?;
    let all = all_of(alloc, fit, children)?;
    Ok(Select {
        cells,
        sources,
        all,
        only,
    })
}

/// The rows of an atom that fit, joined with these parts: the values of these variables.
///
/// # Errors
///
/// `NoMemory` where memory is refused.
pub fn rows_of_atom(
    alloc: Global,
    shape: &Shape<'_>,
    atom: u32,
    only: &[Within],
    parts: &[Part],
    columns: &[u32],
) -> Result<Select, NoMemory>
    requires { atom < length shape.now.query.now.atoms }
    ensures { IfOk result (λ select. select ≡ rows_of_atom shape.now.query.now atom only.now parts.now columns.now) }
{
    let fit = row_fit(alloc, shape, atom, Items::new(alloc))?;
    let select = joined_select(alloc, atom, only, parts, columns, &fit);
    drop(fit);
    select
}

/// The rows of an atom that fit so, joined with these parts.
fn joined_select(
    alloc: Global,
    atom: u32,
    only: &[Within],
    parts: &[Part],
    columns: &[u32],
    fit: &RowFit,
) -> Result<Select, NoMemory>
    ensures { IfOk result (λ select. select ≡ record {
      cells = cells_of (known_of 1 parts.now fit.now.known) columns.now;
      sources = member atom ∷ map (λ (c : ChildValue). c.listed) (children_of 1 parts.now fit.now.known);
      all = fit.now.key ++ (fit.now.others ++ on_of (children_of 1 parts.now fit.now.known));
      only = only.now;
    }) }
{
    let joined = joined_parts(alloc, 1, parts, fit.known.as_slice())?;
    let select = select_of(alloc, atom, only, columns, fit, &joined);
    drop(joined);
    select
}
