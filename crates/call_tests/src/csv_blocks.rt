//! Blocks of CSV, read as the rows of a table and written again.

use crate::making::database;
use cqa_model::Schema;
use cqa_value::{Fail, NoMemory, Row};
use csv_rows::{BlockRows, read_rows, write_rows};
use refusals::Refusal;
use std::alloc::Global;
use table_blocks::Database;

/// Whether rows are written as this text.
fn are_written(alloc: Global, rows: &[Row], wanted: &[u8]) -> bool {
    match write_rows(alloc, rows) {
        Ok(text) => {
            let right = text.as_slice() == wanted;
            drop(text);
            right
        }
        Err(_) => false,
    }
}

/// The rows of a block as one list.
fn rows_of(block: BlockRows) -> Result<Vec<Row>, NoMemory> {
    let BlockRows { sorted, rest } = block;
    if rest.is_empty() {
        sorted.into_vec()
    } else {
        Ok(rest)
    }
}

/// A block, and what its rows are written as, or the number of its first record that is no row.
type Case = (&'static [u8], Result<&'static [u8], u32>);

/// Whether a fault is that the record of a number is no row.
fn is_bad_record(fault: &Fail<Refusal>, wanted: u32) -> bool {
    match fault {
        Fail::Refused(Refusal::BadCsv { number }) => *number == wanted,
        _ => false,
    }
}

fn is_right(alloc: Global, schema: &Schema, case: &Case) -> bool {
    match (read_rows(alloc, schema, case.0), case.1) {
        (Ok(block), Ok(wanted)) => match rows_of(block) {
            Ok(rows) => {
                let right = are_written(alloc, rows.as_slice(), wanted);
                drop(rows);
                right
            }
            Err(_) => false,
        },
        (Err(fault), Err(wanted)) => {
            let right = is_bad_record(&fault, wanted);
            drop(fault);
            right
        }
        (other, _) => {
            drop(other);
            false
        }
    }
}

/// No record; a quote, a line feed and a comma between quotes; another end of a line, and a last record without one; a
/// row that comes before the one before it; two fields, after a line without any; a quote that nothing closes.
const CASES: [Case; 6] = [
    (b"", Ok(b"")),
    (b"a\n\"b\"\"c\n,\"\n", Ok(b"\"a\"\n\"b\"\"c\n,\"\n")),
    (b"x\r\ny", Ok(b"\"x\"\n\"y\"\n")),
    (b"b\na\nb\n", Ok(b"\"b\"\n\"a\"\n\"b\"\n")),
    (b"one\n\none,two\n", Err(2)),
    (b"a\n\"b,c\nd", Ok(b"\"a\"\n\"b,c\nd\"\n")),
];

fn are_right(alloc: Global, db: &Database) -> bool {
    if db.count() == 0 {
        return false;
    }
    let schema = db.schema(0);
    let mut right = true;
    for case in &CASES {
        right = right && is_right(alloc, schema, case);
    }
    right
}

#[test]
fn rows_are_written_as_a_block(rt: HostRuntime) {
    let alloc = rt.alloc();
    let tables = ["create table t (a text, primary key (a))"];
    let Some(db) = database(alloc, &tables, &[]) else {
        panic!(rt; "no table");
    };
    let right = are_right(alloc, &db);
    drop(db);
    assert!(rt; right);
}
