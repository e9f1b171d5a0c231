//! Appends the text of the rows that groups share. It counts: a row is kept where as many choices of a group show it as the
//! group has.

ghost use Rattle.std.specs.Prelude.{◌≡◌, ◌++◌, OnOk};
ghost use Rattle.sql_text.specs.Texts.{all_on_text, apart_cells, beside_all_text, beside_text, besides_text, group_sources, more_by_text, more_cmps_text, more_onlys_text, of_size_text, of_sizes_text, shared_rest_text, shared_text, shared_where_text, counted_text, size_rest_text, size_columns_text, size_out_text, sizes_text};

use crate::conditions::{
    append_cell, append_cmp, append_listed, append_only, append_sources, append_where,
};
use crate::groups::{apart_cells, append_by, group_sources, group_word};
use crate::places::cell_at;
use crate::texts::append_columns;
use crate::words::{append, append_number, one_text, separate};
use crate::{Cell, Child, Cmp, Group, Listed, Names, Step, StepKind, Within};
use cqa_value::NoMemory;

/// Appends a cell that is grouped by, as a column of the sizes of groups.
fn append_size_out(
    names: &Names,
    steps: &[Step],
    sources: &[Listed],
    by: &[Cell],
    place: usize,
    out: &mut Vec<u8>,
) -> Result<(), NoMemory>
    ensures { OnOk result (out.new.items ≡ out.old.items ++ size_out_text names.now steps.now sources.now by.now place) }
{
    append_cell(names, steps, sources, cell_at(by, place), out)?;
    append(" AS k", out)?;
    append_number(place, out)
}

/// Appends the columns of the sizes of groups.
fn append_size_columns(
    names: &Names,
    steps: &[Step],
    sources: &[Listed],
    by: &[Cell],
    out: &mut Vec<u8>,
) -> Result<(), NoMemory>
    ensures { OnOk result (out.new.items ≡ out.old.items ++ size_columns_text names.now steps.now sources.now by.now) }
{
    for place in 0..by.len() {
        separate(place, ", ", out)?;
        append_size_out(names, steps, sources, by, place, out)?;
    }
    Ok(())
}

/// Appends what stands behind the columns of the sizes.
#[tactic(auto, unfolding(crate::specs::Texts::size_rest_text))]
fn append_size_rest(
    names: &Names,
    steps: &[Step],
    group: &Group,
    out: &mut Vec<u8>,
) -> Result<(), NoMemory>
    ensures { OnOk result (out.new.items ≡ out.old.items ++ size_rest_text names.now steps.now group.now) }
{
    let sources = group.sources.as_slice();
    append(" FROM ", out)?;
    append_sources(names, steps, sources, out)?;
    append_where(
        names,
        steps,
        sources,
        group.all.as_slice(),
        group.only.as_slice(),
        out,
    )?;
    append(" GROUP BY ", out)?;
    append_by(names, steps, sources, group.by.as_slice(), out)
}

/// Appends how many choices each group has.
#[tactic(auto, unfolding(crate::specs::Texts::sizes_text))]
fn append_sizes(
    names: &Names,
    steps: &[Step],
    group: &Group,
    out: &mut Vec<u8>,
) -> Result<(), NoMemory>
    ensures { OnOk result (out.new.items ≡ out.old.items ++ sizes_text names.now steps.now group.now) }
{
    let sources = group.sources.as_slice();
    append("(SELECT ", out)?;
    append_size_columns(names, steps, sources, group.by.as_slice(), out)?;
    append(", COUNT(*) AS n", out)?;
    append_size_rest(names, steps, group, out)?;
    append(") AS s", out)
}

/// Appends that a choice has the cell's value of the group whose size stands beside it.
fn append_of_size(
    names: &Names,
    steps: &[Step],
    sources: &[Listed],
    by: &[Cell],
    place: usize,
    out: &mut Vec<u8>,
) -> Result<(), NoMemory>
    ensures { OnOk result (out.new.items ≡ out.old.items ++ of_size_text names.now steps.now sources.now by.now place) }
{
    append("s.k", out)?;
    append_number(place, out)?;
    append(" = ", out)?;
    append_cell(names, steps, sources, cell_at(by, place), out)
}

/// Appends that it has the values of all cells that are grouped by.
fn append_of_sizes(
    names: &Names,
    steps: &[Step],
    sources: &[Listed],
    by: &[Cell],
    out: &mut Vec<u8>,
) -> Result<(), NoMemory>
    ensures { OnOk result (out.new.items ≡ out.old.items ++ of_sizes_text names.now steps.now sources.now by.now) }
{
    for place in 0..by.len() {
        separate(place, " AND ", out)?;
        append_of_size(names, steps, sources, by, place, out)?;
    }
    Ok(())
}

/// Appends comparisons behind another condition.
fn append_more_cmps(
    names: &Names,
    steps: &[Step],
    sources: &[Listed],
    cmps: &[Cmp],
    out: &mut Vec<u8>,
) -> Result<(), NoMemory>
    ensures { OnOk result (out.new.items ≡ out.old.items ++ more_cmps_text names.now steps.now sources.now cmps.now) }
{
    for cmp in cmps {
        append(" AND ", out)?;
        append_cmp(names, steps, sources, cmp, out)?;
    }
    Ok(())
}

/// Appends values in steps, behind another condition.
fn append_more_onlys(
    names: &Names,
    steps: &[Step],
    sources: &[Listed],
    onlys: &[Within],
    out: &mut Vec<u8>,
) -> Result<(), NoMemory>
    ensures { OnOk result (out.new.items ≡ out.old.items ++ more_onlys_text names.now steps.now sources.now onlys.now) }
{
    for only in onlys {
        append(" AND ", out)?;
        append_only(names, steps, sources, *only, out)?;
    }
    Ok(())
}

/// Appends the comparisons of children, behind another condition.
fn append_all_on(
    names: &Names,
    steps: &[Step],
    sources: &[Listed],
    children: &[Child],
    out: &mut Vec<u8>,
) -> Result<(), NoMemory>
    ensures { OnOk result (out.new.items ≡ out.old.items ++ all_on_text names.now steps.now sources.now children.now) }
{
    for child in children {
        append_more_cmps(names, steps, sources, child.on.as_slice(), out)?;
    }
    Ok(())
}

/// Appends a child among the sources.
#[tactic(auto, unfolding(crate::specs::Texts::beside_text))]
fn append_beside(
    names: &Names,
    steps: &[Step],
    child: &Child,
    out: &mut Vec<u8>,
) -> Result<(), NoMemory>
    ensures { OnOk result (out.new.items ≡ out.old.items ++ beside_text names.now steps.now child.now) }
{
    append(" CROSS JOIN ", out)?;
    append_listed(names, steps, child.listed, out)
}

/// Appends children among the sources.
fn append_besides(
    names: &Names,
    steps: &[Step],
    children: &[Child],
    out: &mut Vec<u8>,
) -> Result<(), NoMemory>
    ensures { OnOk result (out.new.items ≡ out.old.items ++ besides_text names.now steps.now children.now) }
{
    for child in children {
        append_beside(names, steps, child, out)?;
    }
    Ok(())
}

/// Appends a group's sources, its size, and its children.
#[tactic(auto, unfolding(crate::specs::Texts::beside_all_text))]
fn append_beside_all(
    names: &Names,
    steps: &[Step],
    group: &Group,
    out: &mut Vec<u8>,
) -> Result<(), NoMemory>
    ensures { OnOk result (out.new.items ≡ out.old.items ++ beside_all_text names.now steps.now group.now) }
{
    append_sources(names, steps, group.sources.as_slice(), out)?;
    append(" CROSS JOIN ", out)?;
    append_sizes(names, steps, group, out)?;
    append_besides(names, steps, group.children.as_slice(), out)
}

/// Appends that a choice is of the group, fits, and ends in rows of the children.
#[tactic(auto, unfolding(crate::specs::Texts::shared_where_text))]
fn append_shared_where(
    names: &Names,
    steps: &[Step],
    sources: &[Listed],
    group: &Group,
    out: &mut Vec<u8>,
) -> Result<(), NoMemory>
    ensures { OnOk result (out.new.items ≡ out.old.items ++ shared_where_text names.now steps.now sources.now group.now) }
{
    append(" WHERE ", out)?;
    append_of_sizes(names, steps, sources, group.by.as_slice(), out)?;
    append_more_cmps(names, steps, sources, group.all.as_slice(), out)?;
    append_more_onlys(names, steps, sources, group.only.as_slice(), out)?;
    append_more_cmps(names, steps, sources, group.fit.as_slice(), out)?;
    append_all_on(names, steps, sources, group.children.as_slice(), out)
}

/// Appends cells behind others that are grouped by.
fn append_more_by(
    names: &Names,
    steps: &[Step],
    sources: &[Listed],
    cells: &[Cell],
    out: &mut Vec<u8>,
) -> Result<(), NoMemory>
    ensures { OnOk result (out.new.items ≡ out.old.items ++ more_by_text names.now steps.now sources.now cells.now) }
{
    for cell in cells {
        append(", ", out)?;
        append_cell(names, steps, sources, *cell, out)?;
    }
    Ok(())
}

/// Appends the cells of a group that aren't grouped by otherwise.
fn append_apart(
    names: &Names,
    steps: &[Step],
    sources: &[Listed],
    group: &Group,
    out: &mut Vec<u8>,
) -> Result<(), NoMemory>
    ensures { OnOk result (out.new.items ≡ out.old.items ++ more_by_text names.now steps.now sources.now (apart_cells group.now.by group.now.cells)) }
{
    let cells = apart_cells(
        *out.allocator(),
        group.by.as_slice(),
        group.cells.as_slice(),
    )?;
    append_more_by(names, steps, sources, cells.as_slice(), out)
}

/// Appends that a group is kept where as many choices show its row as the block has.
#[tactic(auto, unfolding(crate::specs::Texts::counted_text))]
fn append_counted(out: &mut Vec<u8>) -> Result<(), NoMemory>
    ensures { OnOk result (out.new.items ≡ out.old.items ++ counted_text) }
{
    append(" HAVING CASE WHEN ", out)?;
    append("COUNT(*) = MIN(s.n)", out)?;
    append(" THEN 1 ELSE 0 END <> 0", out)
}

/// Appends what stands behind the columns of rows that groups share.
#[tactic(auto, unfolding(crate::specs::Texts::shared_rest_text))]
fn append_shared_rest(
    names: &Names,
    steps: &[Step],
    sources: &[Listed],
    group: &Group,
    out: &mut Vec<u8>,
) -> Result<(), NoMemory>
    ensures { OnOk result (out.new.items ≡ out.old.items ++ shared_rest_text names.now steps.now sources.now group.now) }
{
    append(" FROM ", out)?;
    append_beside_all(names, steps, group, out)?;
    append_shared_where(names, steps, sources, group, out)?;
    append(" GROUP BY ", out)?;
    append_by(names, steps, sources, group.by.as_slice(), out)?;
    append_apart(names, steps, sources, group, out)?;
    append_counted(out)
}

/// Appends the rows that each choice of a group shows, with these sources.
#[tactic(auto, unfolding(crate::specs::Texts::shared_text))]
fn append_shared_of(
    names: &Names,
    steps: &[Step],
    kind: StepKind,
    columns: &[u32],
    sources: &[Listed],
    group: &Group,
    out: &mut Vec<u8>,
) -> Result<(), NoMemory>
    ensures { OnOk result (out.new.items ≡ out.old.items ++ shared_text names.now steps.now kind columns.now sources.now group.now) }
{
    let cells = group.cells.as_slice();
    append(group_word(group.by.as_slice(), cells), out)?;
    append_columns(names, steps, sources, cells, columns, out)?;
    append(one_text(kind, cells.len()), out)?;
    append_shared_rest(names, steps, sources, group, out)
}

/// Appends the rows that each choice of a group shows.
pub(crate) fn append_shared(
    names: &Names,
    steps: &[Step],
    kind: StepKind,
    columns: &[u32],
    group: &Group,
    out: &mut Vec<u8>,
) -> Result<(), NoMemory>
    ensures { OnOk result (out.new.items ≡ out.old.items ++ shared_text names.now steps.now kind columns.now (group_sources group.now) group.now) }
{
    let sources = group_sources(*out.allocator(), group)?;
    append_shared_of(names, steps, kind, columns, sources.as_slice(), group, out)
}
