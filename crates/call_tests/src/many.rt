//! A table of one number, its key, that holds the numbers from 1 to 1,000,000.
//! Each block is looked for once: a look-up that walks would take hours.
ghost use Rattle.std.specs.Prelude.{◌≡◌, ◌<◌, length};
ghost use Rattle.table_blocks.specs.Tables.{key_at};

use crate::making::database;
use cqa_value::{Items, NoMemory, Row, Value};
use row_order::Probe;
use std::alloc::Global;
use std::marker::Brand;
use std::sync::ledger::{Blank, Ledger};
use table_blocks::{Database, Steps};
use table_changes::insert;

/// How many rows the table has, which are the most of a database.
const MANY: i64 = 1_000_000;

/// The row of a number.
fn row_of(alloc: Global, number: i64) -> Result<Row, NoMemory> {
    let mut row = Row::new(alloc);
    row.push(Value::Int(number))?;
    Ok(row)
}

fn rows(alloc: Global) -> Result<Items<Row>, NoMemory> {
    let mut rows = Items::new(alloc);
    for number in 1..=MANY {
        rows.push(row_of(alloc, number)?)?;
    }
    Ok(rows)
}

/// Puts all numbers into the table, and gives how many were new, if they were taken.
fn fill(alloc: Global, db: &mut Database) -> Option<u32> {
    match rows(alloc) {
        Ok(rows) => {
            if db.count() == 1 && rows.len() <= 1_000_000 {
                return insert(db, 0, rows).ok();
            }
            drop(rows);
            None
        }
        Err(_) => None,
    }
}

/// Whether a number's block has one row.
fn has_one<L: Ledger>(db: &Database, number: i64, steps: &mut Steps<L>) -> bool
    requires there { 0 < length db.now }
    requires keyed { length (key_at db.now 0) ≡ 1 }
{
    let value = Value::Int(number);
    let mut probe = Probe::new();
    probe.put(&value);
    db.block(0, &probe, steps).len() == 1
}

/// Whether each number's block has one row.
fn have_one_each<L: Ledger>(db: &Database, blank: Blank) -> bool
    requires name { blank.name ≡ L.name }
    requires parts { blank.parts ≡ L.parts }
    requires some { 0 < blank.parts }
{
    let mut steps = Steps::<L>::new(blank);
    if db.count() == 0 || db.schema(0).key.as_slice().len() != 1 {
        return false;
    }
    let mut right = true;
    for number in 1..=MANY {
        right = right && has_one(db, number, &mut steps);
    }
    right
}

fn are_found(alloc: Global, db: &mut Database) -> bool {
    let filled = fill(alloc, db) == Some(1_000_000);
    filled && have_one_each::<Brand>(db, Blank::new(1))
}

#[test]
fn a_million_blocks_are_found(rt: HostRuntime) {
    let alloc = rt.alloc();
    let tables = ["create table made (only int, primary key (only))"];
    let Some(mut db) = database(alloc, &tables, &[]) else {
        panic!(rt; "no table");
    };
    let right = are_found(alloc, &mut db);
    drop(db);
    assert!(rt; right);
}
