//! What stands at a place of a query's parts, and what stands for it where there is none.

ghost use Rattle.std.specs.Prelude.{◌≡◌, ◌++◌, OnOk, [], slice_index, slice_index_or};
ghost use Rattle.cqa_model.specs.Plan.{answer_at};
ghost use Rattle.sql_text.specs.Texts.{cell_at, column_name, listed_at, only_at, step_at, table_name};

use crate::words::append_quoted;
use crate::{Alias, Cell, Listed, Names, Source, Step, StepKind, Within};
use cqa_model::{ColRef, Query};
use cqa_value::{Name, NoMemory};

/// The source at a place.
pub(crate) fn listed_at(sources: &[Listed], place: usize) -> Listed
    ensures { result ≡ listed_at sources.now place }
{
    match sources.get(place) {
        Some(listed) => *listed,
        None => Listed {
            source: Source::Table(0),
            alias: Alias::Member,
        },
    }
}

/// The cell at a place.
pub(crate) fn cell_at(cells: &[Cell], place: usize) -> Cell
    ensures { result ≡ cell_at cells.now place }
{
    match cells.get(place) {
        Some(cell) => *cell,
        None => Cell {
            place: 0,
            column: 0,
        },
    }
}

/// The cell and its column of a step at a place.
pub(crate) fn only_at(onlys: &[Within], place: usize) -> Within
    ensures { result ≡ only_at onlys.now place }
{
    match onlys.get(place) {
        Some(only) => *only,
        None => Within {
            cell: Cell {
                place: 0,
                column: 0,
            },
            step: 0,
            column: 0,
        },
    }
}

/// The answer column at a place.
pub(crate) fn answer_at(query: &Query, place: usize) -> ColRef
    ensures { result ≡ answer_at query.now place }
{
    match query.answer.as_slice().get(place) {
        Some(column) => *column,
        None => ColRef { atom: 0, col: 0 },
    }
}

/// The kind and the level of the step at a place.
pub(crate) fn step_name_at(steps: &[Step], place: usize) -> (StepKind, usize)
    ensures kind { result.0 ≡ (step_at steps.now place).kind }
    ensures level { result.1 ≡ (step_at steps.now place).level }
{
    match steps.get(place) {
        Some(step) => (step.kind, step.level),
        None => (StepKind::Blocks, 0),
    }
}

/// The variable of a column of the step at a place.
pub(crate) fn variable_at(steps: &[Step], place: usize, column: usize) -> u32
    ensures { result ≡ slice_index (step_at steps.now place).columns column }
{
    match steps.get(place) {
        Some(step) => number_at(step.columns.as_slice(), column),
        None => 0,
    }
}

/// The number at a place.
pub(crate) fn number_at(numbers: &[u32], place: usize) -> u32
    ensures { result ≡ slice_index numbers.now place }
{
    match numbers.get(place) {
        Some(number) => *number,
        None => 0,
    }
}

/// Appends the name of an atom's table.
pub(crate) fn append_table_name(
    names: &Names,
    atom: usize,
    out: &mut Vec<u8>,
) -> Result<(), NoMemory>
    ensures { OnOk result (out.new.items ≡ out.old.items ++ table_name names.now atom) }
{
    append_quoted(name_at(names.tables.as_slice(), atom), out)
}

/// Appends the name of a column of an atom's table.
pub(crate) fn append_column_name(
    names: &Names,
    atom: usize,
    column: usize,
    out: &mut Vec<u8>,
) -> Result<(), NoMemory>
    ensures { OnOk result (out.new.items ≡ out.old.items ++ column_name names.now atom column) }
{
    match names.columns.as_slice().get(atom) {
        Some(columns) => append_quoted(name_at(columns.as_slice(), column), out),
        None => append_quoted(b"", out),
    }
}

/// The name at a place.
fn name_at(names: &[Name], place: usize) -> &[u8]
    ensures { result.now ≡ slice_index_or names.now place [] }
{
    match names.get(place) {
        Some(name) => name.bytes(),
        None => b"",
    }
}
