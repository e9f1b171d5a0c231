//! Appends sources, cells and conditions.

ghost use Rattle.std.specs.Prelude.{◌≡◌, ◌++◌, if◌then◌else◌, OnOk};
ghost use Rattle.sql_text.specs.Texts.{and_between, cell_text, column_of_text, conditions_text, cmp_text, cmps_text, column_text, is_there, listed_at, listed_text, only_at, only_text, onlys_text, source_text, sources_text, where_text};

use crate::places::{
    append_column_name, append_table_name, listed_at, only_at, step_name_at, variable_at,
};
use crate::words::{
    and_between, append, append_alias, append_step_name, append_test, append_variable, is_there,
    separate,
};
use crate::{Cell, Cmp, Listed, Names, Source, Step, Within};
use cqa_value::NoMemory;

/// Appends the column of a source.
pub(crate) fn append_column(
    names: &Names,
    steps: &[Step],
    source: Source,
    column: usize,
    out: &mut Vec<u8>,
) -> Result<(), NoMemory>
    ensures { OnOk result (out.new.items ≡ out.old.items ++ column_text names.now steps.now source column) }
{
    match source {
        Source::Table(atom) => append_column_name(names, atom as usize, column, out),
        Source::Step(place) => append_variable(variable_at(steps, place, column), out),
    }
}

/// Appends a source.
fn append_source(
    names: &Names,
    steps: &[Step],
    source: Source,
    out: &mut Vec<u8>,
) -> Result<(), NoMemory>
    ensures { OnOk result (out.new.items ≡ out.old.items ++ source_text names.now steps.now source) }
{
    match source {
        Source::Table(atom) => append_table_name(names, atom as usize, out),
        Source::Step(place) => {
            let (kind, level) = step_name_at(steps, place);
            append_step_name(kind, level, out)
        }
    }
}

/// Appends a source with its alias.
#[tactic(auto, unfolding(crate::specs::Texts::listed_text))]
pub(crate) fn append_listed(
    names: &Names,
    steps: &[Step],
    listed: Listed,
    out: &mut Vec<u8>,
) -> Result<(), NoMemory>
    ensures { OnOk result (out.new.items ≡ out.old.items ++ listed_text names.now steps.now listed) }
{
    append_source(names, steps, listed.source, out)?;
    append(" AS ", out)?;
    append_alias(listed.alias, out)
}

/// Appends sources.
pub(crate) fn append_sources(
    names: &Names,
    steps: &[Step],
    sources: &[Listed],
    out: &mut Vec<u8>,
) -> Result<(), NoMemory>
    ensures { OnOk result (out.new.items ≡ out.old.items ++ sources_text names.now steps.now sources.now) }
{
    for place in 0..sources.len() {
        separate(place, " CROSS JOIN ", out)?;
        append_listed(names, steps, listed_at(sources, place), out)?;
    }
    Ok(())
}

/// Appends a cell.
pub(crate) fn append_cell(
    names: &Names,
    steps: &[Step],
    sources: &[Listed],
    cell: Cell,
    out: &mut Vec<u8>,
) -> Result<(), NoMemory>
    ensures { OnOk result (out.new.items ≡ out.old.items ++ cell_text names.now steps.now sources.now cell) }
{
    let listed = listed_at(sources, cell.place);
    append_alias(listed.alias, out)?;
    append(".", out)?;
    append_column(names, steps, listed.source, cell.column, out)
}

/// Appends a comparison.
pub(crate) fn append_cmp(
    names: &Names,
    steps: &[Step],
    sources: &[Listed],
    cmp: &Cmp,
    out: &mut Vec<u8>,
) -> Result<(), NoMemory>
    ensures { OnOk result (out.new.items ≡ out.old.items ++ cmp_text names.now steps.now sources.now cmp.now) }
{
    match cmp {
        Cmp::Same { left, right } => {
            append_cell(names, steps, sources, *left, out)?;
            append(" = ", out)?;
            append_cell(names, steps, sources, *right, out)
        }
        Cmp::Test { cell, op, value } => {
            append_cell(names, steps, sources, *cell, out)?;
            append_test(*op, value, out)
        }
    }
}

/// Appends comparisons.
pub(crate) fn append_cmps(
    names: &Names,
    steps: &[Step],
    sources: &[Listed],
    cmps: &[Cmp],
    out: &mut Vec<u8>,
) -> Result<(), NoMemory>
    ensures { OnOk result (out.new.items ≡ out.old.items ++ cmps_text names.now steps.now sources.now cmps.now) }
{
    for place in 0..cmps.len() {
        separate(place, " AND ", out)?;
        append_cmp(names, steps, sources, &cmps[place], out)?;
    }
    Ok(())
}

/// Appends the values of a column of a source.
#[tactic(auto, unfolding(crate::specs::Texts::column_of_text))]
fn append_column_of(
    names: &Names,
    steps: &[Step],
    source: Source,
    column: usize,
    out: &mut Vec<u8>,
) -> Result<(), NoMemory>
    ensures { OnOk result (out.new.items ≡ out.old.items ++ column_of_text names.now steps.now source column) }
{
    append("(SELECT s.", out)?;
    append_column(names, steps, source, column, out)?;
    append(" FROM ", out)?;
    append_source(names, steps, source, out)?;
    append(" AS s)", out)
}

/// Appends that a cell's value is in a column of a step.
#[tactic(auto, unfolding(crate::specs::Texts::only_text))]
pub(crate) fn append_only(
    names: &Names,
    steps: &[Step],
    sources: &[Listed],
    only: Within,
    out: &mut Vec<u8>,
) -> Result<(), NoMemory>
    ensures { OnOk result (out.new.items ≡ out.old.items ++ only_text names.now steps.now sources.now only) }
{
    append_cell(names, steps, sources, only.cell, out)?;
    append(" IN ", out)?;
    append_column_of(names, steps, Source::Step(only.step), only.column, out)
}

/// Appends such conditions.
fn append_onlys(
    names: &Names,
    steps: &[Step],
    sources: &[Listed],
    onlys: &[Within],
    out: &mut Vec<u8>,
) -> Result<(), NoMemory>
    ensures { OnOk result (out.new.items ≡ out.old.items ++ onlys_text names.now steps.now sources.now onlys.now) }
{
    for place in 0..onlys.len() {
        separate(place, " AND ", out)?;
        append_only(names, steps, sources, only_at(onlys, place), out)?;
    }
    Ok(())
}

/// Appends comparisons and such conditions.
#[tactic(auto, unfolding(crate::specs::Texts::conditions_text))]
fn append_conditions(
    names: &Names,
    steps: &[Step],
    sources: &[Listed],
    all: &[Cmp],
    only: &[Within],
    out: &mut Vec<u8>,
) -> Result<(), NoMemory>
    ensures { OnOk result (out.new.items ≡ out.old.items ++ conditions_text names.now steps.now sources.now all.now only.now) }
{
    append_cmps(names, steps, sources, all, out)?;
    append(and_between(is_there(all.len()), is_there(only.len())), out)?;
    append_onlys(names, steps, sources, only, out)
}

/// Appends the conditions on a choice.
pub(crate) fn append_where(
    names: &Names,
    steps: &[Step],
    sources: &[Listed],
    all: &[Cmp],
    only: &[Within],
    out: &mut Vec<u8>,
) -> Result<(), NoMemory>
    ensures { OnOk result (out.new.items ≡ out.old.items ++ where_text names.now steps.now sources.now all.now only.now) }
{
    if !is_there(all.len()) && !is_there(only.len()) {
        return Ok(());
    }
    append(" WHERE ", out)?;
    append_conditions(names, steps, sources, all, only, out)
}
