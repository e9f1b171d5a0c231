//! Appends the text of groups.

ghost use Rattle.std.specs.Prelude.{◌≡◌, ◌++◌, ◌||◌, if◌then◌else◌, IfOk, OnOk};
ghost use Rattle.std.specs.List.{list_all};
ghost use Rattle.sql_text.specs.declared.syntax.Cell.{Cell as CellValue};
ghost use Rattle.sql_text.specs.Texts.{all_led_text, and_between, apart_cells, by_text, cell_at, child_text, children_text, fit_text, fits_text, group_cell_text, group_columns_text, group_fits_text, group_out_text, group_rest_text, group_sources, group_text, group_word, has_fits, having_text, is_by, is_there, kept_text, least_text, led_text, same_text, sames_text};

use crate::conditions::{append_cell, append_cmps, append_listed, append_sources, append_where};
use crate::places::{cell_at, number_at};
use crate::words::{
    and_between, append, append_alias, append_variable, is_there, one_text, separate,
};
use crate::{Cell, Child, Group, Listed, Names, Step, StepKind};
use cqa_value::{Items, NoMemory};
use std::alloc::Global;

/// The sources of a group, and then its children.
pub(crate) fn group_sources(alloc: Global, group: &Group) -> Result<Items<Listed>, NoMemory>
    ensures { IfOk result (λ sources. sources ≡ group_sources group.now) }
{
    let mut sources = Items::from_slice(alloc, group.sources.as_slice())?;
    for child in group.children.as_slice() {
        sources.push(child.listed)?;
    }
    Ok(sources)
}

/// Appends a child that is joined outwards.
#[tactic(auto, unfolding(crate::specs::Texts::child_text))]
fn append_child(
    names: &Names,
    steps: &[Step],
    sources: &[Listed],
    child: &Child,
    out: &mut Vec<u8>,
) -> Result<(), NoMemory>
    ensures { OnOk result (out.new.items ≡ out.old.items ++ child_text names.now steps.now sources.now child.now) }
{
    append(" LEFT JOIN ", out)?;
    append_listed(names, steps, child.listed, out)?;
    append(" ON ", out)?;
    append_cmps(names, steps, sources, child.on.as_slice(), out)
}

/// Appends the children of a group.
fn append_children(
    names: &Names,
    steps: &[Step],
    sources: &[Listed],
    children: &[Child],
    out: &mut Vec<u8>,
) -> Result<(), NoMemory>
    ensures { OnOk result (out.new.items ≡ out.old.items ++ children_text names.now steps.now sources.now children.now) }
{
    for child in children {
        append_child(names, steps, sources, child, out)?;
    }
    Ok(())
}

/// Whether a cell is in a list.
fn is_by(cells: &[Cell], cell: Cell) -> bool
    ensures { result ≡ is_by cells.now cell }
{
    for other in cells {
        if other.place == cell.place && other.column == cell.column {
            return true;
        }
    }
    false
}

/// Whether each of these cells is in a list.
fn are_by(cells: &[Cell], by: &[Cell]) -> bool
    ensures { result ≡ list_all (λ (c : CellValue). is_by cells.now c) by.now }
{
    for cell in by {
        if !is_by(cells, *cell) {
            return false;
        }
    }
    true
}

/// The first words of a group.
pub(crate) fn group_word(by: &[Cell], cells: &[Cell]) -> &'static str
    ensures { result.now ≡ group_word by.now cells.now }
{
    if are_by(cells, by) {
        "SELECT "
    } else {
        "SELECT DISTINCT "
    }
}

/// The cells of a group that aren't grouped by.
pub(crate) fn apart_cells(
    alloc: Global,
    by: &[Cell],
    cells: &[Cell],
) -> Result<Items<Cell>, NoMemory>
    ensures { IfOk result (λ list. list ≡ apart_cells by.now cells.now) }
{
    let mut list = Items::new(alloc);
    for cell in cells {
        if !is_by(by, *cell) {
            list.push(*cell)?;
        }
    }
    Ok(list)
}

/// Appends a column of a group.
fn append_group_cell(
    names: &Names,
    steps: &[Step],
    sources: &[Listed],
    by: &[Cell],
    cell: Cell,
    out: &mut Vec<u8>,
) -> Result<(), NoMemory>
    ensures { OnOk result (out.new.items ≡ out.old.items ++ group_cell_text names.now steps.now sources.now by.now cell) }
{
    if is_by(by, cell) {
        return append_cell(names, steps, sources, cell, out);
    }
    append("MIN(", out)?;
    append_cell(names, steps, sources, cell, out)?;
    append(")", out)
}

/// Appends the columns of a group, each named by its variable.
fn append_group_columns(
    names: &Names,
    steps: &[Step],
    sources: &[Listed],
    by: &[Cell],
    cells: &[Cell],
    columns: &[u32],
    out: &mut Vec<u8>,
) -> Result<(), NoMemory>
    ensures { OnOk result (out.new.items ≡ out.old.items ++ group_columns_text names.now steps.now sources.now by.now cells.now columns.now) }
{
    for place in 0..cells.len() {
        separate(place, ", ", out)?;
        append_group_out(names, steps, sources, by, cells, columns, place, out)?;
    }
    Ok(())
}

/// Appends the column of a group at a place, named by its variable.
fn append_group_out(
    names: &Names,
    steps: &[Step],
    sources: &[Listed],
    by: &[Cell],
    cells: &[Cell],
    columns: &[u32],
    place: usize,
    out: &mut Vec<u8>,
) -> Result<(), NoMemory>
    ensures { OnOk result (out.new.items ≡ out.old.items ++ group_out_text names.now steps.now sources.now by.now cells.now columns.now place) }
{
    append_group_cell(names, steps, sources, by, cell_at(cells, place), out)?;
    append(" AS ", out)?;
    append_variable(number_at(columns, place), out)
}

/// Appends that a cell has one value in a group.
fn append_same(
    names: &Names,
    steps: &[Step],
    sources: &[Listed],
    cell: Cell,
    out: &mut Vec<u8>,
) -> Result<(), NoMemory>
    ensures { OnOk result (out.new.items ≡ out.old.items ++ same_text names.now steps.now sources.now cell) }
{
    append("MIN(", out)?;
    append_cell(names, steps, sources, cell, out)?;
    append(") = MAX(", out)?;
    append_cell(names, steps, sources, cell, out)?;
    append(")", out)
}

/// Appends that each of these cells has one value in a group.
fn append_sames(
    names: &Names,
    steps: &[Step],
    sources: &[Listed],
    cells: &[Cell],
    out: &mut Vec<u8>,
) -> Result<(), NoMemory>
    ensures { OnOk result (out.new.items ≡ out.old.items ++ sames_text names.now steps.now sources.now cells.now) }
{
    for place in 0..cells.len() {
        separate(place, " AND ", out)?;
        append_same(names, steps, sources, cell_at(cells, place), out)?;
    }
    Ok(())
}

/// Appends that a child has a row.
fn append_led(child: &Child, out: &mut Vec<u8>) -> Result<(), NoMemory>
    ensures { OnOk result (out.new.items ≡ out.old.items ++ led_text child.now) }
{
    append_alias(child.listed.alias, out)?;
    append(".one = 1", out)
}

/// Appends that each child has a row.
fn append_all_led(children: &[Child], out: &mut Vec<u8>) -> Result<(), NoMemory>
    ensures { OnOk result (out.new.items ≡ out.old.items ++ all_led_text children.now) }
{
    for place in 0..children.len() {
        separate(place, " AND ", out)?;
        append_led(&children[place], out)?;
    }
    Ok(())
}

/// Whether something is asked of each choice of a group.
fn has_fits(group: &Group) -> bool
    ensures { result ≡ has_fits group.now }
{
    is_there(group.fit.len()) || is_there(group.children.len())
}

/// Appends that a choice of a group fits and is led on.
#[tactic(auto, unfolding(crate::specs::Texts::fit_text))]
fn append_fit(
    names: &Names,
    steps: &[Step],
    sources: &[Listed],
    group: &Group,
    out: &mut Vec<u8>,
) -> Result<(), NoMemory>
    ensures { OnOk result (out.new.items ≡ out.old.items ++ fit_text names.now steps.now sources.now group.now) }
{
    append_cmps(names, steps, sources, group.fit.as_slice(), out)?;
    append(
        and_between(is_there(group.fit.len()), is_there(group.children.len())),
        out,
    )?;
    append_all_led(group.children.as_slice(), out)
}

/// Appends that the least answer to whether a choice of a group fits and is led on is yes.
#[tactic(auto, unfolding(crate::specs::Texts::least_text))]
fn append_least(
    names: &Names,
    steps: &[Step],
    sources: &[Listed],
    group: &Group,
    out: &mut Vec<u8>,
) -> Result<(), NoMemory>
    ensures { OnOk result (out.new.items ≡ out.old.items ++ least_text names.now steps.now sources.now group.now) }
{
    append("MIN(CASE WHEN ", out)?;
    append_fit(names, steps, sources, group, out)?;
    append(" THEN 1 ELSE 0 END) = 1", out)
}

/// Appends that each choice of a group fits and is led on.
fn append_fits(
    names: &Names,
    steps: &[Step],
    sources: &[Listed],
    group: &Group,
    out: &mut Vec<u8>,
) -> Result<(), NoMemory>
    ensures { OnOk result (out.new.items ≡ out.old.items ++ fits_text names.now steps.now sources.now group.now) }
{
    if !has_fits(group) {
        return Ok(());
    }
    append_least(names, steps, sources, group, out)
}

/// Appends that each choice of a group fits and is led on, and that these cells have one value.
#[tactic(auto, unfolding(crate::specs::Texts::group_fits_text))]
fn append_group_fits(
    names: &Names,
    steps: &[Step],
    sources: &[Listed],
    group: &Group,
    cells: &[Cell],
    out: &mut Vec<u8>,
) -> Result<(), NoMemory>
    ensures { OnOk result (out.new.items ≡ out.old.items ++ group_fits_text names.now steps.now sources.now group.now cells.now) }
{
    append_fits(names, steps, sources, group, out)?;
    append(and_between(has_fits(group), is_there(cells.len())), out)?;
    append_sames(names, steps, sources, cells, out)
}

/// Appends that a group is kept where it does.
#[tactic(auto, unfolding(crate::specs::Texts::kept_text))]
fn append_kept(
    names: &Names,
    steps: &[Step],
    sources: &[Listed],
    group: &Group,
    cells: &[Cell],
    out: &mut Vec<u8>,
) -> Result<(), NoMemory>
    ensures { OnOk result (out.new.items ≡ out.old.items ++ kept_text names.now steps.now sources.now group.now cells.now) }
{
    append(" HAVING CASE WHEN ", out)?;
    append_group_fits(names, steps, sources, group, cells, out)?;
    append(" THEN 1 ELSE 0 END <> 0", out)
}

/// Appends the conditions on a group, of which the last ones are on these cells.
fn append_having(
    names: &Names,
    steps: &[Step],
    sources: &[Listed],
    group: &Group,
    cells: &[Cell],
    out: &mut Vec<u8>,
) -> Result<(), NoMemory>
    ensures { OnOk result (out.new.items ≡ out.old.items ++ having_text names.now steps.now sources.now group.now cells.now) }
{
    if !has_fits(group) && !is_there(cells.len()) {
        return Ok(());
    }
    append_kept(names, steps, sources, group, cells, out)
}

/// Appends the conditions on a group.
fn append_group_conditions(
    names: &Names,
    steps: &[Step],
    sources: &[Listed],
    group: &Group,
    out: &mut Vec<u8>,
) -> Result<(), NoMemory>
    ensures { OnOk result (out.new.items ≡ out.old.items ++ having_text names.now steps.now sources.now group.now (apart_cells group.now.by group.now.cells)) }
{
    let cells = apart_cells(
        *out.allocator(),
        group.by.as_slice(),
        group.cells.as_slice(),
    )?;
    append_having(names, steps, sources, group, cells.as_slice(), out)
}

/// Appends the cells that are grouped by.
pub(crate) fn append_by(
    names: &Names,
    steps: &[Step],
    sources: &[Listed],
    by: &[Cell],
    out: &mut Vec<u8>,
) -> Result<(), NoMemory>
    ensures { OnOk result (out.new.items ≡ out.old.items ++ by_text names.now steps.now sources.now by.now) }
{
    for place in 0..by.len() {
        separate(place, ", ", out)?;
        append_cell(names, steps, sources, cell_at(by, place), out)?;
    }
    Ok(())
}

/// Appends what stands behind the columns of a group.
#[tactic(auto, unfolding(crate::specs::Texts::group_rest_text))]
fn append_group_rest(
    names: &Names,
    steps: &[Step],
    sources: &[Listed],
    group: &Group,
    out: &mut Vec<u8>,
) -> Result<(), NoMemory>
    ensures { OnOk result (out.new.items ≡ out.old.items ++ group_rest_text names.now steps.now sources.now group.now) }
{
    append(" FROM ", out)?;
    append_sources(names, steps, group.sources.as_slice(), out)?;
    append_children(names, steps, sources, group.children.as_slice(), out)?;
    append_where(
        names,
        steps,
        sources,
        group.all.as_slice(),
        group.only.as_slice(),
        out,
    )?;
    append(" GROUP BY ", out)?;
    append_by(names, steps, sources, group.by.as_slice(), out)?;
    append_group_conditions(names, steps, sources, group, out)
}

/// Appends groups, with these sources.
#[tactic(auto, unfolding(crate::specs::Texts::group_text))]
fn append_group_of(
    names: &Names,
    steps: &[Step],
    kind: StepKind,
    columns: &[u32],
    sources: &[Listed],
    group: &Group,
    out: &mut Vec<u8>,
) -> Result<(), NoMemory>
    ensures { OnOk result (out.new.items ≡ out.old.items ++ group_text names.now steps.now kind columns.now sources.now group.now) }
{
    append(group_word(group.by.as_slice(), group.cells.as_slice()), out)?;
    append_group_columns(
        names,
        steps,
        sources,
        group.by.as_slice(),
        group.cells.as_slice(),
        columns,
        out,
    )?;
    append(one_text(kind, group.cells.len()), out)?;
    append_group_rest(names, steps, sources, group, out)
}

/// Appends groups.
pub(crate) fn append_group(
    names: &Names,
    steps: &[Step],
    kind: StepKind,
    columns: &[u32],
    group: &Group,
    out: &mut Vec<u8>,
) -> Result<(), NoMemory>
    ensures { OnOk result (out.new.items ≡ out.old.items ++ group_text names.now steps.now kind columns.now (group_sources group.now) group.now) }
{
    let sources = group_sources(*out.allocator(), group)?;
    append_group_of(names, steps, kind, columns, sources.as_slice(), group, out)
}
