//! The blocks of an atom, as groups joined with parts.

ghost use Rattle.std.specs.Prelude.{◌≡◌, ◌<◌, ◌≤◌, IfOk, length};
ghost use Rattle.sql_text.specs.declared.syntax.Alias.TheVariants.{Context as ContextAlias};
ghost use Rattle.sql_text.specs.declared.syntax.Source.TheVariants.{Step as Earlier};
ghost use Rattle.sql_steps.specs.Variables.{all_below};
ghost use Rattle.sql_steps.specs.Steps.{block_group, cells_at, cells_of, context_group, group_of, held, member};

use crate::children::{Joined, joined_parts};
use crate::fitting::{Known, cells_of, held};
use crate::lists::numbers;
use crate::part::Part;
use crate::selects::{RowFit, member, row_fit};
use crate::shape::Shape;
use cqa_value::{Items, NoMemory};
use sql_text::{Alias, Cell, Group, Listed, Source, Within};
use std::alloc::Global;

/// What groups are made of: choices of a row of each source, which are grouped by cells, as far as values are in steps.
#[derive(Drop)]
struct Choices {
    sources: Items<Listed>,
    only: Items<Within>,
    by: Items<Cell>,
}

/// The cells of these columns of a source.
fn cells_at(alloc: Global, place: usize, columns: &[u32]) -> Result<Items<Cell>, NoMemory>
    ensures { IfOk result (λ cells. cells ≡ cells_at place columns.now) }
{
    let mut cells = Items::new(alloc);
    for column in columns {
        cells.push(Cell {
            place,
            column: *column as usize,
        })?;
    }
    Ok(cells)
}

/// The cells of the first so many columns of a source.
fn first_cells(alloc: Global, place: usize, count: usize) -> Result<Items<Cell>, NoMemory>
    ensures { IfOk result (λ cells. cells ≡ cells_at place (all_below count)) }
{
    let mut cells = Items::new(alloc);
    for column in 0..count {
        cells.push(Cell { place, column })?;
    }
    Ok(cells)
}

/// Groups of these choices, of rows that fit so, with these children.
fn group_from(choices: Choices, cells: Items<Cell>, fit: RowFit, joined: Joined) -> Group
    ensures { result ≡ record {
      cells = cells;
      sources = choices.sources;
      all = fit.key;
      only = choices.only;
      by = choices.by;
      fit = fit.others;
      children = joined.children;
    } }
{
    Group {
        cells,
        sources: choices.sources,
        all: fit.key,
        only: choices.only,
        by: choices.by,
        fit: fit.others,
        children: joined.children,
    }
}

/// The blocks of an atom, joined with these parts, where a source behind the atom's table has what is known at first.
fn group_of(
    alloc: Global,
    shape: &Shape<'_>,
    atom: u32,
    choices: Choices,
    start: Items<Known>,
    parts: &[Part],
    columns: &[u32],
) -> Result<Group, NoMemory>
    requires atom { atom < length shape.now.query.now.atoms }
    requires places { length choices.sources ≤ 2 }
    ensures { IfOk result (λ group. group ≡ group_of shape.now.query.now atom choices.sources start choices.only choices.by parts.now columns.now) }
{
    let fit = row_fit(alloc, shape, atom, start)?;
    let place = choices.sources.len();
    match joined_parts(alloc, place, parts, fit.known.as_slice()) {
        Ok(joined) => joined_group(alloc, choices, columns, fit, joined),
        Err(refused) => {
            drop(fit);
            Err(refused)
        }
    }
}

/// Groups of these choices, of rows that fit so, with these children, that show these variables.
fn joined_group(
    alloc: Global,
    choices: Choices,
    columns: &[u32],
    fit: RowFit,
    joined: Joined,
) -> Result<Group, NoMemory>
    ensures { IfOk result (λ group. group ≡ record {
      cells = cells_of joined.known columns.now;
      sources = choices.sources;
      all = fit.key;
      only = choices.only;
      by = choices.by;
      fit = fit.others;
      children = joined.children;
    }) }
{
    match cells_of(alloc, joined.known.as_slice(), columns) {
        Ok(cells) => Ok(group_from(choices, cells, fit, joined)),
        Err(refused) => {
            drop(joined);
            drop(fit);
            Err(refused)
        }
    }
}

/// Each block of an atom.
///
/// # Errors
///
/// `NoMemory` where memory is refused.
pub fn block_group(
    alloc: Global,
    shape: &Shape<'_>,
    atom: u32,
    only: &[Within],
    parts: &[Part],
    columns: &[u32],
) -> Result<Group, NoMemory>
    requires { atom < length shape.now.query.now.atoms }
    ensures { IfOk result (λ group. group ≡ block_group shape.now.query.now atom only.now parts.now columns.now) }
{
    let sources = Items::from_slice(alloc, &[member(atom)])?;
    let only = Items::from_slice(alloc, only)?;
    let by = cells_at(alloc, 0, shape.key(atom))?;
    let choices = Choices { sources, only, by };
    let start = Items::new(alloc);
    group_of(alloc, shape, atom, choices, start, parts, columns)
}

/// A source at a place with contexts, as `s`.
fn context(place: usize) -> Listed
    ensures { result ≡ record { source = Earlier place; alias = ContextAlias } }
{
    Listed {
        source: Source::Step(place),
        alias: Alias::Context,
    }
}

/// Each block of an atom for each of its contexts, which are in the step at a place, with these variables.
///
/// # Errors
///
/// `NoMemory` where memory is refused.
pub fn context_group(
    alloc: Global,
    shape: &Shape<'_>,
    atom: u32,
    place: usize,
    block: &[u32],
    parts: &[Part],
    columns: &[u32],
) -> Result<Group, NoMemory>
    requires { atom < length shape.now.query.now.atoms }
    ensures { IfOk result (λ group. group ≡ context_group shape.now.query.now atom place block.now parts.now columns.now) }
{
    let sources = Items::from_slice(alloc, &[member(atom), context(place)])?;
    let only = Items::new(alloc);
    let by = first_cells(alloc, 1, block.len())?;
    let choices = Choices { sources, only, by };
    let start = held(alloc, 1, block)?;
    group_of(alloc, shape, atom, choices, start, parts, columns)
}
