//! The tests of the rows of one table, as of a `delete` or a `range`: their columns are there, with the kinds of the literals.

ghost use Rattle.std.specs.Prelude.{◌<◌, ◌≤◌, ◌^◌, [], length};
ghost use Rattle.std.specs.List.{AllZip};
ghost use Rattle.cqa_value.specs.declared.row.TheConstants.{MOST_COLUMNS};
ghost use Rattle.refusals.specs.Refusal.{Checked};
ghost use Rattle.query_resolve.specs.Checks.{first_fault, fault_by_number, test_fault, tests_fault};
ghost use Rattle.query_resolve.specs.Resolved.{IsTestOf, AreTestsOf};

use crate::condition::check_kinds;
use crate::faults::unknown_column;
use crate::names::{place_of_column, table_columns};
use cqa_model::Column;
use cqa_value::{Fail, Items};
use refusals::Refusal;
use spj_syntax::RawTest;
use std::alloc::Global;
use table_blocks::{ColumnTest, Database};

/// The tests of the rows of a table, whose columns are known and have the kinds of the literals.
///
/// # Errors
///
/// The first test's `UnknownColumn` or `TypeMismatch` with its number, from 1; `NoMemory` where memory is refused.
pub fn resolve_tests(
    alloc: Global,
    db: &Database,
    table: u32,
    tests: &[RawTest],
) -> Result<Items<ColumnTest>, Fail<Refusal>>
    requires there { table < length db.now }
    requires few { length tests.now < 2 ^ 32 }
    ensures { Checked result (tests_fault db.now table tests.now) (AreTestsOf db.now table tests.now) }
{
    tests_of(alloc, table_columns(db, table), tests)
}

/// The tests of columns among these.
fn tests_of(
    alloc: Global,
    columns: &[Column],
    tests: &[RawTest],
) -> Result<Items<ColumnTest>, Fail<Refusal>>
    requires narrow { length columns.now ≤ MOST_COLUMNS }
    requires few { length tests.now < 2 ^ 32 }
    ensures { Checked result (first_fault (fault_by_number (test_fault columns.now)) [] tests.now) (AllZip (IsTestOf columns.now) tests.now) }
{
    let mut resolved = Vec::with_capacity(alloc, tests.len())?;
    for (at, test) in tests.iter().enumerate() {
        resolved.push(column_test(alloc, columns, test, at as u32 + 1)?)?;
    }
    Ok(Items::from_vec(resolved))
}

/// The test of a number.
fn column_test(
    alloc: Global,
    columns: &[Column],
    test: &RawTest,
    number: u32,
) -> Result<ColumnTest, Fail<Refusal>>
    requires { length columns.now ≤ MOST_COLUMNS }
    ensures { Checked result (test_fault columns.now number test.now) (IsTestOf columns.now test.now) }
{
    let Some(place) = place_of_column(columns, &test.col) else {
        return Err(unknown_column(alloc, None, &test.col));
    };
    check_kinds(number, columns[place].kind, test.value.kind())?;
    Ok(ColumnTest {
        col: place as u32,
        op: test.op,
        value: test.value.copy(alloc)?,
    })
}
