//! The witnesses of a join of two tables, as a cursor gives them one after the other, each with the names of its rows; and the
//! short lists that they come in.

use crate::making::{Wanted, is_answered};
use cqa_value::{Row, Value, row_text};
use join_access::{PlaceList, RowList};
use row_cursor::JoinCursor;
use row_order::Probe;
use std::alloc::Global;
use table_blocks::Bound;

/// The texts of a witness's two rows, and their places in their tables.
type Told = ([&'static str; 2], [u32; 2]);

/// Whether a row has this text.
fn is_row(alloc: Global, row: &Row, text: &str) -> bool {
    let mut out = Vec::new(alloc);
    let right = row_text(row, &mut out).is_ok() && out.as_slice() == text.as_bytes();
    drop(out);
    right
}

fn are_rows(alloc: Global, rows: &RowList<'_>, texts: [&str; 2]) -> bool {
    if rows.len() != 2 {
        return false;
    }
    is_row(alloc, rows.get(0), texts[0]) && is_row(alloc, rows.get(1), texts[1])
}

fn are_at(names: &PlaceList, places: [u32; 2]) -> bool {
    if names.len() != 2 {
        return false;
    }
    for at in 0..2 {
        let name = names.get(at);
        if name.table != at as u32 || name.place != places[at] {
            return false;
        }
    }
    true
}

/// Whether a cursor goes on to this witness.
fn goes_on_to(alloc: Global, cursor: &mut JoinCursor<'_>, told: &Told) -> bool {
    let Some(rows) = cursor.next() else {
        return false;
    };
    let names = cursor.places();
    let right = are_rows(alloc, &rows, told.0) && are_at(&names, told.1);
    drop(names);
    drop(rows);
    right
}

/// All witnesses of a query, in their order.
#[derive(Drop)]
struct Case<'a> {
    told: &'a [Told],
}

/// Each row of the first table meets one of the second.
const TOLD: [Told; 2] = [
    (["(1, 1)", "(1, 1)"], [0, 0]),
    (["(2, 1)", "(1, 2)"], [1, 1]),
];

impl Wanted for Case<'_> {
    fn comes(&self, alloc: Global, bound: &Bound<'_>) -> bool {
        let mut cursor = JoinCursor::new(bound.db, bound.query, None);
        let mut right = true;
        for told in self.told {
            right = right && goes_on_to(alloc, &mut cursor, told);
        }
        let ended = cursor.next().is_none();
        drop(cursor);
        right && ended
    }
}

#[test]
fn witnesses_come_in_order_with_their_names(rt: HostRuntime) {
    let tables = [
        "create table r (x int, y int, primary key (x))",
        "create table s (y int, x int, primary key (y))",
    ];
    let rows = [
        "insert into r values (1, 1), (2, 1)",
        "insert into s values (1, 1), (1, 2)",
    ];
    let told = TOLD;
    let wanted = Case { told: &told };
    let question = "ask exists from r, s where r.x = s.x and r.y = s.y";
    assert!(rt; is_answered(rt.alloc(), &tables, &rows, question, &wanted));
}

/// Whether these values stand in a probe.
fn are_values(probe: &Probe<'_>, values: &[&Value]) -> bool {
    if probe.len() != values.len() {
        return false;
    }
    for at in 0..values.len() {
        if probe.get(at) != values[at] {
            return false;
        }
    }
    true
}

#[test]
fn short_lists_are_cut_and_copied(rt: HostRuntime) {
    let (one, two, three) = (Value::Int(1), Value::Int(2), Value::Int(3));
    let mut probe = Probe::new();
    probe.put(&one);
    probe.put(&two);
    probe.put(&three);
    let whole = probe.copy();
    probe.truncate(2);
    probe.put(&one);
    assert!(rt; are_values(&whole, &[&one, &two, &three]));
    assert!(rt; are_values(&probe, &[&one, &two, &one]));
}
