//! A table of a number and a text, which are its key in the other order.
//! Its rows are found by first key values, by their blocks and as wholes.
ghost use Rattle.std.specs.Prelude.{◌≡◌, ◌+◌, ◌<◌, ◌≤◌, length};
ghost use Rattle.table_blocks.specs.Tables.{key_at, rows_at};

use crate::making::database;
use cqa_value::{Name, Row, Value};
use row_order::Probe;
use std::alloc::Global;
use std::marker::Brand;
use std::sync::ledger::{Blank, Ledger};
use table_blocks::{Database, Steps};

/// The place and the number of the rows with first key values, if two ways to find them agree.
fn span<L: Ledger>(db: &Database, probe: &Probe<'_>, steps: &mut Steps<L>) -> Option<(u32, usize)>
    requires there { 0 < length db.now }
    requires few { length probe.now ≤ length (key_at db.now 0) }
{
    let (place, rows) = db.rows_with(0, probe);
    let (start, span) = db.span(0, probe, steps);
    if place == start && rows.again().eq(span) {
        Some((place, rows.len()))
    } else {
        None
    }
}

/// How many rows the block of all key values has. A look-up takes no step in a table without rows, at most two where there
/// is one row, and at most 20 where there are 1,000.
fn block<L: Ledger>(db: &Database, probe: &Probe<'_>, steps: &mut Steps<L>) -> usize
    requires there { 0 < length db.now }
    requires all { length probe.now ≡ length (key_at db.now 0) }
    ensures none { length (rows_at db.now 0) ≡ 0 → steps.new ≤ steps.old }
    ensures one { length (rows_at db.now 0) ≡ 1 → steps.new ≤ steps.old + 2 }
    ensures many { length (rows_at db.now 0) ≡ 1_000 → steps.new ≤ steps.old + 20 }
{
    db.block(0, probe, steps).len()
}

/// The place of the row with a number and a text.
fn place(alloc: Global, db: &Database, number: i64, text: &Value) -> Option<u32>
    requires { 0 < length db.now }
{
    let text = text.copy(alloc).ok()?;
    let mut row = Row::new(alloc);
    row.push(Value::Int(number)).ok()?;
    row.push(text).ok()?;
    db.place_of(0, &row)
}

/// A first key value, a second one, and the place and the number of the rows that have the first, and both.
type Case = (&'static str, i64, (u32, usize), (u32, usize));

const CASES: [Case; 8] = [
    ("w", 1, (0, 0), (0, 0)),
    ("x", 1, (0, 2), (0, 1)),
    ("x", 3, (0, 2), (1, 0)),
    ("x", 5, (0, 2), (1, 1)),
    ("y", 2, (2, 2), (2, 1)),
    ("y", 5, (2, 2), (4, 0)),
    ("z", 4, (4, 1), (4, 1)),
    ("zz", 4, (5, 0), (5, 0)),
];

/// Whether that is found, and the row of both, where there is one.
fn is_found<L: Ledger>(
    alloc: Global,
    db: &Database,
    first: &Value,
    case: &Case,
    blank: Blank,
) -> bool
    requires name { blank.name ≡ L.name }
    requires parts { blank.parts ≡ L.parts }
    requires some { 0 < blank.parts }
{
    if db.count() == 0 || db.schema(0).key.as_slice().len() != 2 {
        return false;
    }
    let mut steps = Steps::<L>::new(blank);
    let second = Value::Int(case.1);
    let mut probe = Probe::new();
    probe.put(first);
    let one = span(db, &probe, &mut steps);
    probe.put(&second);
    let both = span(db, &probe, &mut steps);
    let count = block(db, &probe, &mut steps);
    let (at, number) = case.3;
    let whole = if number == 1 { Some(at) } else { None };
    one == Some(case.2)
        && both == Some(case.3)
        && count == number
        && place(alloc, db, case.1, first) == whole
}

/// The same, with its first key value.
fn is_case_found(alloc: Global, db: &Database, case: &Case) -> bool {
    match Name::from_bytes(alloc, case.0.as_bytes()) {
        Ok(name) => {
            let first = Value::Text(name);
            let right = is_found::<Brand>(alloc, db, &first, case, Blank::new(1));
            drop(first);
            right
        }
        Err(_) => false,
    }
}

#[test]
fn rows_are_found_by_first_key_values(rt: HostRuntime) {
    let alloc = rt.alloc();
    let tables = ["create table t (a int, b text, primary key (b, a))"];
    let rows = ["insert into t values (4, 'z'), (1, 'x'), (3, 'y'), (5, 'x'), (2, 'y'), (1, 'x')"];
    let Some(db) = database(alloc, &tables, &rows) else {
        panic!(rt; "no table");
    };
    let mut right = true;
    for case in &CASES {
        right = right && is_case_found(alloc, &db, case);
    }
    drop(db);
    assert!(rt; right);
}
