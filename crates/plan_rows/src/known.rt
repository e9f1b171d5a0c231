//! The values that are known of a row before it is looked for: by tests, by the rows taken, by a candidate.

ghost use Rattle.std.specs.Prelude.{◌≡◌, ◌≤◌, ◌<◌, IfSome, All, List, length, slice_index_or};
ghost use Rattle.std.specs.Option.{option_copied};
ghost use Rattle.cqa_value.specs.declared.value.Value.{Value as Cell};
ghost use Rattle.cqa_value.specs.Values.{nothing};
ghost use Rattle.cqa_model.specs.Shape.{IsInRange};
ghost use Rattle.cqa_model.specs.Query.{atom_at};
ghost use Rattle.cqa_model.specs.Plan.{TestHolds};
ghost use Rattle.row_order.specs.Spans.{first_key};
ghost use Rattle.plan_rows.specs.Taking.{placed};
ghost use Rattle.plan_rows.specs.Fitting.{ColumnAgrees, AgreesAll, GivesCandidate};
ghost use Rattle.plan_rows.specs.Knowing.{MayFit};
ghost use Rattle.plan_rows.specs.Over.{look_query, look_taken};

use crate::look::Look;
use crate::setting::Setting;
use crate::taken_rows::Taken;
use cqa_model::{ColRef, Cond, MOST_COLUMNS, Op, Query};
use cqa_value::{Row, Value};
use row_order::{Probe, cell};

/// The value that a test tells of a column.
fn told_by(cond: &Cond, column: ColRef) -> Option<&Value>
    ensures { IfSome result (λ value. (y : List Cell) → TestHolds column.atom y cond.now → slice_index_or y column.col nothing ≡ value.now) }
{
    match cond {
        Cond::Test {
            col,
            op: Op::Eq,
            value,
        } if *col == column => Some(value),
        _ => None,
    }
}

/// The value that some test tells of a column.
fn told(conds: &[Cond], column: ColRef) -> Option<&Value>
    ensures { IfSome result (λ value. (y : List Cell) → All (TestHolds column.atom y) conds.now → slice_index_or y column.col nothing ≡ value.now) }
{
    for cond in conds {
        if let Some(value) = told_by(cond, column) {
            return Some(value);
        }
    }
    None
}

/// The value that a row of an atom tells of a column: that of its own column which is linked to it.
fn told_by_row<'b>(
    setting: &Setting<'_, '_>,
    other: u32,
    row: &'b Row,
    column: ColRef,
) -> Option<&'b Value>
    requires { IsInRange setting.now.bound.now.query.now.atoms column }
    ensures { IfSome result (λ value. (y : List Cell) → ColumnAgrees setting.now.bound.now.query.now y column row.now other (atom_at setting.now.bound.now.query.now other).width → slice_index_or y column.col nothing ≡ value.now) }
{
    if other == column.atom {
        return cell(row, column.col);
    }
    let class = setting.bound.variables.class_of(column);
    for joined in setting.joined.of_atom(other) {
        if joined.class == class {
            return cell(row, joined.col as u32);
        }
    }
    None
}

/// The value that some row taken tells of a column.
fn told_by_taken<'b>(
    setting: &Setting<'_, '_>,
    taken: &Taken<'b>,
    column: ColRef,
) -> Option<&'b Value>
    requires { IsInRange setting.now.bound.now.query.now.atoms column }
    ensures { IfSome result (λ value. (y : List Cell) → AgreesAll setting.now.bound.now.query.now column.atom y (placed taken.now) → slice_index_or y column.col nothing ≡ value.now) }
{
    match taken {
        Taken::Nothing => None,
        Taken::Before(other, row, before) => match told_by_row(setting, *other, row, column) {
            Some(value) => Some(value),
            None => told_by_taken(setting, before, column),
        },
    }
}

/// The value that a candidate tells of a column of the answer.
fn told_by_answer<'b>(query: &Query, row: &'b Row, column: ColRef) -> Option<&'b Value>
    ensures { IfSome result (λ value. (y : List Cell) → GivesCandidate query.now column.atom y row.now → slice_index_or y column.col nothing ≡ value.now) }
{
    let columns = query.answer.as_slice();
    for at in 0..columns.len() as u32 {
        if columns[at as usize] == column {
            return cell(row, at);
        }
    }
    None
}

/// The value that each row has in a column if it fits.
fn known<'b>(look: &Look<'b>, row: Option<&'b Row>, col: u32) -> Option<&'b Value>
    requires { col < (atom_at (look_query look.now) look.now.atom).width }
    ensures { IfSome result (λ value. (y : List Cell) → MayFit (look_query look.now) (option_copied row.entry) (look_taken look.now) look.now.atom y → slice_index_or y col nothing ≡ value.now) }
{
    let query = look.setting.bound.query;
    let column = ColRef {
        atom: look.atom,
        col,
    };
    if let Some(value) = told(query.conds.as_slice(), column) {
        return Some(value);
    }
    if let Some(value) = told_by_taken(look.setting, look.taken, column) {
        return Some(value);
    }
    match row {
        Some(row) => told_by_answer(query, row, column),
        None => None,
    }
}

/// The values that each row has in some columns if it fits: those of the first columns, as many as are known.
pub fn known_values<'b>(look: &Look<'b>, row: Option<&'b Row>, columns: &[u32]) -> Probe<'b>
    ensures few { length result ≤ length columns.now }
    ensures known { (y : List Cell) → MayFit (look_query look.now) (option_copied row.entry) (look_taken look.now) look.now.atom y → first_key columns.now result y ≡ result }
{
    let setting = look.setting;
    let width = setting.bound.width_of(look.atom);
    let mut probe = Probe::new();
    for col in columns {
        if *col >= width || probe.len() == MOST_COLUMNS {
            return probe;
        }
        let Some(value) = known(look, row, *col) else {
            return probe;
        };
        probe.put(value);
    }
    probe
}
