//! What is said of the atoms of a query over tables that statements make, and of a number that no atom has.

use crate::making::{Wanted, is_answered};
use row_order::Probe;
use std::alloc::Global;
use table_blocks::Bound;

/// The number of an atom, the place of its table, its width, its key, and how many rows there are.
struct Case {
    atom: u32,
    table: u32,
    width: u32,
    key: &'static [u32],
    rows: usize,
}

/// How many rows a look-up by no key values gives, if the first of them is the table's first; 0 where the query has no such atom.
fn found(bound: &Bound<'_>, atom: u32) -> usize {
    if atom as usize >= bound.query.atoms.len() {
        return 0;
    }
    let (place, rows) = bound.rows_with(atom, &Probe::new());
    if place == 0 { rows.len() } else { 0 }
}

impl Wanted for Case {
    fn comes(&self, _alloc: Global, bound: &Bound<'_>) -> bool {
        bound.table_of(self.atom) == self.table
            && bound.width_of(self.atom) == self.width
            && bound.key_of(self.atom) == self.key
            && bound.rows_of(self.atom).len() == self.rows
            && found(bound, self.atom) == self.rows
    }
}

const TABLES: [&str; 3] = [
    "create table q (x int, primary key (x))",
    "create table r (x int, y int, primary key (x))",
    "create table s (y int, z int, w int, primary key (w, y))",
];

const ROWS: [&str; 2] = [
    "insert into r values (1, 1), (1, 2), (2, 5)",
    "insert into s values (1, 5, 7)",
];

/// Two atoms, in another order than their tables, and a number that none has: the first table, which is empty.
const CASES: [Case; 3] = [
    Case {
        atom: 0,
        table: 2,
        width: 3,
        key: &[2, 0],
        rows: 1,
    },
    Case {
        atom: 1,
        table: 1,
        width: 2,
        key: &[0],
        rows: 3,
    },
    Case {
        atom: 7,
        table: 0,
        width: 0,
        key: &[],
        rows: 0,
    },
];

#[test]
fn atoms_are_described(rt: HostRuntime) {
    let alloc = rt.alloc();
    for case in &CASES {
        assert!(rt;
            is_answered(
                alloc,
                &TABLES,
                &ROWS,
                "ask exists from s, r where r.y = s.y",
                case
            )
        );
    }
}
