//! The rows that were taken so far: a list on the stack of the calls.

ghost use Rattle.std.specs.Prelude.{◌≡◌, ◌<◌, IfOk, length, map};
ghost use Rattle.cqa_value.specs.declared.row.TheConstants.{MOST_VALUES};
ghost use Rattle.cqa_value.specs.Values.{nothing};
ghost use Rattle.plan_rows.specs.Taking.{placed, taken_value};

use cqa_model::ColRef;
use cqa_value::{NOTHING, NoMemory, Row, Value};
use std::alloc::Global;

/// The rows taken so far, each of an atom, the last first.
#[derive(Clone, Copy)]
pub enum Taken<'a> {
    Nothing,
    Before(u32, &'a Row, &'a Taken<'a>),
}

/// The value of a column in the last row that was taken for its atom; `zero` where there is none.
pub fn taken_value<'a>(taken: &Taken<'a>, column: &ColRef, zero: &'a Value) -> &'a Value
    requires { zero.now ≡ nothing }
    ensures { result.now ≡ taken_value (placed taken.now) column.now }
{
    match taken {
        Taken::Nothing => zero,
        Taken::Before(atom, row, before) => {
            if *atom == column.atom {
                row.at_or(column.col, zero)
            } else {
                taken_value(before, column, zero)
            }
        }
    }
}

/// The values of columns in the rows taken.
pub fn answer_of(alloc: Global, taken: &Taken<'_>, columns: &[ColRef]) -> Result<Row, NoMemory>
    requires { length columns.now < MOST_VALUES }
    ensures { IfOk result (λ answer. answer ≡ map (taken_value (placed taken.now)) columns.now) }
{
    let mut answer = Row::new(alloc);
    for column in columns {
        answer.push(taken_value(taken, column, &NOTHING).copy(alloc)?)?;
    }
    Ok(answer)
}
