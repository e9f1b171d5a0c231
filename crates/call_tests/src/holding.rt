//! Whether a row holds by a plan, over tables that statements make.

ghost use Rattle.std.specs.Prelude.{◌≡◌, length};

use crate::making::{Wanted, is_answered};
use cqa_value::{Row, Value};
use fo_plan::holds;
use fo_rewrite::plan_of;
use std::alloc::Global;
use table_blocks::Bound;

/// Whether the plan of a query says so of a row.
fn says(alloc: Global, bound: &Bound<'_>, row: &Row, wanted: bool) -> bool
    requires { length row.now ≡ length bound.now.query.now.answer }
{
    match plan_of(alloc, bound.query) {
        Ok(Some(plan)) => {
            let held = holds(alloc, &*bound, &plan, &*row);
            drop(plan);
            held == wanted
        }
        other => {
            drop(other);
            false
        }
    }
}

fn row_of(alloc: Global, number: Option<i64>) -> Option<Row> {
    let mut row = Row::new(alloc);
    match number {
        Some(number) => match row.push(Value::Int(number)) {
            Ok(()) => Some(row),
            Err(_) => None,
        },
        None => Some(row),
    }
}

/// Rows of two tables, a query with a row, and whether the row holds.
struct Case {
    rows: &'static [&'static str],
    query: &'static str,
    row: Option<i64>,
    holds: bool,
}

impl Wanted for Case {
    fn comes(&self, alloc: Global, bound: &Bound<'_>) -> bool {
        match row_of(alloc, self.row) {
            Some(row) => {
                let right = row.as_slice().len() == bound.query.answer.len()
                    && says(alloc, bound, &row, self.holds);
                drop(row);
                right
            }
            None => false,
        }
    }
}

const TABLES: [&str; 2] = [
    "create table r (x int, y int, primary key (x))",
    "create table s (y int, z int, primary key (y))",
];

const JOINED: &str = "ask exists from r, s where r.y = s.y";

const SELECTED: &str = "ask select s.z from r, s where r.y = s.y";

/// Tables without rows; a block whose other row meets none of the other table; one both of whose rows meet one; a row of an
/// answer that one repair hasn't, and one that all have.
const CASES: [Case; 5] = [
    Case {
        rows: &[],
        query: JOINED,
        row: None,
        holds: false,
    },
    Case {
        rows: &[
            "insert into r values (1, 1), (1, 2)",
            "insert into s values (1, 5)",
        ],
        query: JOINED,
        row: None,
        holds: false,
    },
    Case {
        rows: &[
            "insert into r values (1, 1), (1, 2)",
            "insert into s values (1, 5), (2, 7)",
        ],
        query: JOINED,
        row: None,
        holds: true,
    },
    Case {
        rows: &[
            "insert into r values (1, 1), (1, 2)",
            "insert into s values (1, 5), (2, 5), (2, 6), (3, 5)",
        ],
        query: SELECTED,
        row: Some(5),
        holds: false,
    },
    Case {
        rows: &[
            "insert into r values (1, 1), (1, 2)",
            "insert into s values (1, 5), (2, 5)",
        ],
        query: SELECTED,
        row: Some(5),
        holds: true,
    },
];

#[test]
fn rows_hold_by_plans(rt: HostRuntime) {
    let alloc = rt.alloc();
    for case in &CASES {
        assert!(rt; is_answered(alloc, &TABLES, case.rows, case.query, case));
    }
}
