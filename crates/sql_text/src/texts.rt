//! Appends the text of a query.

ghost use Rattle.std.specs.Prelude.{◌≡◌, ◌++◌, ◌<◌, if◌then◌else◌, OnOk, OnErr};
ghost use Rattle.sql_text.specs.Texts.{answer_text, answer_columns_text, answers_text, body_text, cell_at, columns_text, last_text, once_text, out_text, rest_text, select_text, select_word, sql_bytes, step_text, steps_text};

use crate::conditions::{append_cell, append_sources, append_where};
use crate::groups::{append_by, append_group};
use crate::places::{answer_at, append_column_name, cell_at, number_at};
use crate::shared::append_shared;
use crate::words::{append, append_step_name, append_variable, is_there, one_text, separate};
use crate::{Body, Cell, Listed, Names, Select, Sql, Step, StepKind};
use cqa_model::Query;
use cqa_value::NoMemory;

/// Appends what stands behind the columns of a select.
#[tactic(auto, unfolding(crate::specs::Texts::rest_text))]
fn append_rest(
    names: &Names,
    steps: &[Step],
    select: &Select,
    out: &mut Vec<u8>,
) -> Result<(), NoMemory>
    ensures { OnOk result (out.new.items ≡ out.old.items ++ rest_text names.now steps.now select.now) }
{
    append(" FROM ", out)?;
    append_sources(names, steps, select.sources.as_slice(), out)?;
    append_where(
        names,
        steps,
        select.sources.as_slice(),
        select.all.as_slice(),
        select.only.as_slice(),
        out,
    )
}

/// Appends a column of a select, named by its variable.
fn append_out(
    names: &Names,
    steps: &[Step],
    sources: &[Listed],
    cells: &[Cell],
    columns: &[u32],
    place: usize,
    out: &mut Vec<u8>,
) -> Result<(), NoMemory>
    ensures { OnOk result (out.new.items ≡ out.old.items ++ out_text names.now steps.now sources.now cells.now columns.now place) }
{
    append_cell(names, steps, sources, cell_at(cells, place), out)?;
    append(" AS ", out)?;
    append_variable(number_at(columns, place), out)
}

/// Appends the columns of a select.
pub(crate) fn append_columns(
    names: &Names,
    steps: &[Step],
    sources: &[Listed],
    cells: &[Cell],
    columns: &[u32],
    out: &mut Vec<u8>,
) -> Result<(), NoMemory>
    ensures { OnOk result (out.new.items ≡ out.old.items ++ columns_text names.now steps.now sources.now cells.now columns.now) }
{
    for place in 0..cells.len() {
        separate(place, ", ", out)?;
        append_out(names, steps, sources, cells, columns, place, out)?;
    }
    Ok(())
}

/// The first words of a select of a step, which has so many cells.
fn select_word(count: usize) -> &'static str
    ensures { result.now ≡ select_word count }
{
    if is_there(count) {
        "SELECT "
    } else {
        "SELECT DISTINCT "
    }
}

/// Appends that each row of a select stands once.
fn append_once(
    names: &Names,
    steps: &[Step],
    sources: &[Listed],
    cells: &[Cell],
    out: &mut Vec<u8>,
) -> Result<(), NoMemory>
    ensures { OnOk result (out.new.items ≡ out.old.items ++ once_text names.now steps.now sources.now cells.now) }
{
    if !is_there(cells.len()) {
        return Ok(());
    }
    append(" GROUP BY ", out)?;
    append_by(names, steps, sources, cells, out)
}

/// Appends a select of a step.
#[tactic(auto, unfolding(crate::specs::Texts::select_text))]
fn append_select(
    names: &Names,
    steps: &[Step],
    kind: StepKind,
    columns: &[u32],
    select: &Select,
    out: &mut Vec<u8>,
) -> Result<(), NoMemory>
    ensures { OnOk result (out.new.items ≡ out.old.items ++ select_text names.now steps.now kind columns.now select.now) }
{
    let sources = select.sources.as_slice();
    let cells = select.cells.as_slice();
    append(select_word(cells.len()), out)?;
    append_columns(names, steps, sources, cells, columns, out)?;
    append(one_text(kind, cells.len()), out)?;
    append_rest(names, steps, select, out)?;
    append_once(names, steps, sources, cells, out)
}

/// Appends what a step has.
fn append_body(
    names: &Names,
    steps: &[Step],
    kind: StepKind,
    columns: &[u32],
    body: &Body,
    out: &mut Vec<u8>,
) -> Result<(), NoMemory>
    ensures { OnOk result (out.new.items ≡ out.old.items ++ body_text names.now steps.now kind columns.now body.now) }
{
    match body {
        Body::Distinct(select) => append_select(names, steps, kind, columns, select, out),
        Body::Grouped(group) => append_group(names, steps, kind, columns, group, out),
        Body::Shared(group) => append_shared(names, steps, kind, columns, group, out),
    }
}

/// Appends a step.
#[tactic(auto, unfolding(crate::specs::Texts::step_text))]
fn append_step(
    names: &Names,
    steps: &[Step],
    step: &Step,
    out: &mut Vec<u8>,
) -> Result<(), NoMemory>
    ensures { OnOk result (out.new.items ≡ out.old.items ++ step_text names.now steps.now step.now) }
{
    append_step_name(step.kind, step.level, out)?;
    append(" AS (\n  ", out)?;
    append_body(
        names,
        steps,
        step.kind,
        step.columns.as_slice(),
        &step.body,
        out,
    )?;
    append(")", out)
}

/// Appends all steps.
fn append_steps(names: &Names, steps: &[Step], out: &mut Vec<u8>) -> Result<(), NoMemory>
    ensures { OnOk result (out.new.items ≡ out.old.items ++ steps_text names.now steps.now) }
{
    for place in 0..steps.len() {
        separate(place, ",\n", out)?;
        append_step(names, steps, &steps[place], out)?;
    }
    Ok(())
}

/// Appends an answer column.
#[tactic(auto, unfolding(crate::specs::Texts::answer_text))]
fn append_answer(
    query: &Query,
    names: &Names,
    steps: &[Step],
    select: &Select,
    place: usize,
    out: &mut Vec<u8>,
) -> Result<(), NoMemory>
    ensures { OnOk result (out.new.items ≡ out.old.items ++ answer_text query.now names.now steps.now select.now place) }
{
    append_cell(
        names,
        steps,
        select.sources.as_slice(),
        cell_at(select.cells.as_slice(), place),
        out,
    )?;
    append(" AS ", out)?;
    let column = answer_at(query, place);
    append_column_name(names, column.atom as usize, column.col as usize, out)
}

/// Appends the answer columns.
fn append_answer_columns(
    query: &Query,
    names: &Names,
    steps: &[Step],
    select: &Select,
    out: &mut Vec<u8>,
) -> Result<(), NoMemory>
    ensures { OnOk result (out.new.items ≡ out.old.items ++ answer_columns_text query.now names.now steps.now select.now) }
{
    for place in 0..select.cells.len() {
        separate(place, ", ", out)?;
        append_answer(query, names, steps, select, place, out)?;
    }
    Ok(())
}

/// Appends the answer columns, or the constant 1.
fn append_answers(
    query: &Query,
    names: &Names,
    steps: &[Step],
    select: &Select,
    out: &mut Vec<u8>,
) -> Result<(), NoMemory>
    ensures { OnOk result (out.new.items ≡ out.old.items ++ answers_text query.now names.now steps.now select.now) }
{
    if select.cells.is_empty() {
        return append("1 AS \"certain\"", out);
    }
    append_answer_columns(query, names, steps, select, out)
}

/// Appends the last select of a query.
#[tactic(auto, unfolding(crate::specs::Texts::last_text))]
fn append_last(
    query: &Query,
    names: &Names,
    steps: &[Step],
    last: &Select,
    out: &mut Vec<u8>,
) -> Result<(), NoMemory>
    ensures { OnOk result (out.new.items ≡ out.old.items ++ last_text query.now names.now steps.now last.now) }
{
    append("\nSELECT ", out)?;
    append_answers(query, names, steps, last, out)?;
    append_rest(names, steps, last, out)?;
    append(";\n", out)
}

/// Appends the text of a query: steps and a last select, `;`, and a line feed.
///
/// # Errors
///
/// `NoMemory` where memory is refused; `out` is then as it was.
pub fn append_sql(
    query: &Query,
    names: &Names,
    sql: &Sql,
    out: &mut Vec<u8>,
) -> Result<(), NoMemory>
    ensures ok { OnOk result (out.new.items ≡ out.old.items ++ sql_bytes query.now names.now sql.now) }
    ensures err { OnErr result (out.new.items ≡ out.old.items) }
{
    let mut text = Vec::new(*out.allocator());
    append_query(query, names, sql, &mut text)?;
    out.extend_from_slice(text.as_slice())?;
    Ok(())
}

/// Appends a query.
#[tactic(auto, unfolding(crate::specs::Texts::sql_bytes))]
fn append_query(query: &Query, names: &Names, sql: &Sql, out: &mut Vec<u8>) -> Result<(), NoMemory>
    ensures { OnOk result (out.new.items ≡ out.old.items ++ sql_bytes query.now names.now sql.now) }
{
    append("WITH ", out)?;
    append_steps(names, sql.steps.as_slice(), out)?;
    append_last(query, names, sql.steps.as_slice(), &sql.last, out)
}
