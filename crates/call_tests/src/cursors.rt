//! The rows and the blocks of a table whose key is its second column, as cursors give them one after the other.

use crate::making::database;
use cqa_value::{NoMemory, row_text};
use row_cursor::{BlockCursor, RowCursor};
use std::alloc::Global;
use table_blocks::Database;

/// Appends the texts of the rows.
fn append_rows(db: &Database, out: &mut Vec<u8>) -> Result<(), NoMemory> {
    if db.count() > 0 {
        for row in RowCursor::new(db, 0) {
            row_text(row, out)?;
        }
    }
    Ok(())
}

/// Appends the texts of the blocks, each in brackets.
fn append_blocks(db: &Database, out: &mut Vec<u8>) -> Result<(), NoMemory> {
    if db.count() > 0 {
        for block in BlockCursor::new(db, 0) {
            out.push(b'[')?;
            for row in block {
                row_text(row, out)?;
            }
            out.push(b']')?;
        }
    }
    Ok(())
}

/// Whether the rows have one of these texts, and the blocks the other.
fn are_given(alloc: Global, db: &Database, rows: &str, blocks: &str) -> Result<bool, NoMemory> {
    let mut out = Vec::new(alloc);
    append_rows(db, &mut out)?;
    let are_rows = out.as_slice() == rows.as_bytes();
    out.clear();
    append_blocks(db, &mut out)?;
    Ok(are_rows && out.as_slice() == blocks.as_bytes())
}

#[test]
fn rows_and_blocks_come_in_block_order(rt: HostRuntime) {
    let alloc = rt.alloc();
    let tables = ["create table t (a int, b int, primary key (b))"];
    let rows = ["insert into t values (2, 1), (1, 9), (1, 1), (0, 7), (2, 7)"];
    let Some(db) = database(alloc, &tables, &rows) else {
        panic!(rt; "no table");
    };
    let right = are_given(
        alloc,
        &db,
        "(1, 1)(2, 1)(0, 7)(2, 7)(1, 9)",
        "[(1, 1)(2, 1)][(0, 7)(2, 7)][(1, 9)]",
    );
    drop(db);
    assert!(rt; right.is_ok_and(|right| right));
}
