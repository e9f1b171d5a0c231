//! The goal of a `range` and the column of its groups: their columns are there, and that of a sum is one of integers.

ghost use Rattle.std.specs.Prelude.{◌≡◌, ◌<◌, ◌≤◌, Some, length};
ghost use Rattle.cqa_value.specs.declared.value.Kind.TheVariants as kinds;
ghost use Rattle.cqa_value.specs.declared.row.TheConstants.{MOST_COLUMNS};
ghost use Rattle.refusals.specs.Refusal.{Checked, first_of};
ghost use Rattle.query_resolve.specs.Names.{column_named, columns_at, kind_named};
ghost use Rattle.query_resolve.specs.Checks.{known_fault, kinds_fault, goal_fault, group_fault};
ghost use Rattle.query_resolve.specs.Resolved.{IsGoalOf, IsGroupOf};

use crate::condition::check_kinds;
use crate::faults::unknown_column;
use crate::names::{place_of_column, table_columns};
use aggregate_range::Goal;
use cqa_model::Column;
use cqa_value::{Fail, Kind, Name};
use refusals::Refusal;
use spj_syntax::RawGoal;
use std::alloc::Global;
use table_blocks::Database;

/// The goal of a `range` over a table, whose column is known; that of a sum is one of integers.
///
/// # Errors
///
/// `UnknownColumn`, or `TypeMismatch` with condition 0 for a sum of texts; `NoMemory` where memory is refused.
pub fn resolve_goal(
    alloc: Global,
    db: &Database,
    table: u32,
    goal: &RawGoal,
) -> Result<Goal, Fail<Refusal>>
    requires { table < length db.now }
    ensures { Checked result (goal_fault (columns_at db.now table) goal.now) (IsGoalOf (columns_at db.now table) goal.now) }
{
    goal_among(alloc, table_columns(db, table), goal)
}

/// The goal over columns among these.
fn goal_among(alloc: Global, columns: &[Column], goal: &RawGoal) -> Result<Goal, Fail<Refusal>>
    requires { length columns.now ≤ MOST_COLUMNS }
    ensures { Checked result (goal_fault columns.now goal.now) (IsGoalOf columns.now goal.now) }
{
    match goal {
        RawGoal::Count => Ok(Goal::Count),
        RawGoal::Sum(name) => Ok(Goal::Sum(summed_place(alloc, columns, name)?)),
        RawGoal::Min(name) => Ok(Goal::Min(known_place(alloc, columns, name)?)),
        RawGoal::Max(name) => Ok(Goal::Max(known_place(alloc, columns, name)?)),
    }
}

/// The place of the column by whose values a `range` over a table groups the rows, where one is named.
///
/// # Errors
///
/// `UnknownColumn`; `NoMemory` where memory is refused.
pub fn resolve_group(
    alloc: Global,
    db: &Database,
    table: u32,
    name: &Option<Name>,
) -> Result<Option<u32>, Fail<Refusal>>
    requires { table < length db.now }
    ensures { Checked result (group_fault (columns_at db.now table) name.now) (IsGroupOf (columns_at db.now table) name.now) }
{
    match name {
        None => Ok(None),
        Some(name) => Ok(Some(known_place(alloc, table_columns(db, table), name)?)),
    }
}

/// The place of a column by its name.
fn known_place(alloc: Global, columns: &[Column], name: &Name) -> Result<u32, Fail<Refusal>>
    requires { length columns.now ≤ MOST_COLUMNS }
    ensures { Checked result (known_fault columns.now name.now) (λ place. column_named columns.now name.now ≡ Some place) }
{
    match place_of_column(columns, name) {
        Some(place) => Ok(place as u32),
        None => Err(unknown_column(alloc, None, name)),
    }
}

/// The place of a column of integers by its name.
fn summed_place(alloc: Global, columns: &[Column], name: &Name) -> Result<u32, Fail<Refusal>>
    requires { length columns.now ≤ MOST_COLUMNS }
    ensures { Checked result (first_of (known_fault columns.now name.now) (kinds_fault 0 (kind_named columns.now name.now) kinds.Int)) (λ place. column_named columns.now name.now ≡ Some place) }
{
    let Some(place) = place_of_column(columns, name) else {
        return Err(unknown_column(alloc, None, name));
    };
    check_kinds(0, columns[place].kind, Kind::Int)?;
    Ok(place as u32)
}
