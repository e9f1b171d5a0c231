//! Rows that are preferred by tests: of each block in which some row passes them, the others are taken out.
//! Only the rows that have the first key values which the tests tell are looked at, each once.
ghost use Rattle.std.specs.Prelude.{◌≡◌, ◌<◌, ◌≤◌, ◌+◌, ◌-◌, ◌++◌, ◌||◌, OnErr, IfOk, Bool, true, false, if◌then◌else◌, List, length, map, take, drop, replicate, slice_set};
ghost use Rattle.std.specs.List.Sorted.{IsStrictlySortedBy};
ghost use Rattle.cqa_value.specs.declared.value.Value.{Value as Cell};
ghost use Rattle.cqa_model.specs.Database.{block_cmp};
ghost use Rattle.table_blocks.specs.Tables.{rows_at, key_at, with_rows, AreValidTables};
ghost use Rattle.table_changes.specs.Preferred.{BlocksBegin, DecidesTests, Prefers, stays_among, staying};

use crate::changes::key_of;
use cqa_value::{NoMemory, Row};
use row_blocks::{block_start, same_key};
use row_pieces::Rows;
use table_blocks::{ColumnTest, Database, passes_all};

/// About so many rows are told and taken out at a time: few enough that one that goes is still in the processor's cache.
const AT_A_TIME: usize = 1 << 12;

/// A block that is being read: the place of its first row, how many of its rows were read, and whether one of these passes
/// all tests.
#[derive(Clone, Copy)]
struct OpenBlock {
    start: usize,
    read: usize,
    passes: bool,
}

/// A block of which no row was read.
fn block_from(start: usize) -> OpenBlock
    ensures start { result.start ≡ start }
    ensures read { result.read ≡ 0 }
    ensures passes { result.passes ≡ false }
{
    OpenBlock {
        start,
        read: 0,
        passes: false,
    }
}

/// Reads one row of a block more, and tells of it whether it passes all tests.
fn read_row(stays: &mut [bool], block: OpenBlock, row: &Row, tests: &[ColumnTest]) -> OpenBlock
    requires { block.start + block.read < length stays.old }
    ensures start { result.start ≡ block.start }
    ensures read { result.read ≡ block.read + 1 }
    ensures passes { (passes : List Cell → Bool) → DecidesTests tests.now passes → result.passes ≡ (block.passes || passes row.now) }
    ensures told { (passes : List Cell → Bool) → DecidesTests tests.now passes → stays.new ≡ slice_set stays.old (block.start + block.read) (passes row.now) }
{
    let passes = passes_all(row, tests);
    stays[block.start + block.read] = passes;
    OpenBlock {
        start: block.start,
        read: block.read + 1,
        passes: block.passes || passes,
    }
}

/// Tells of the rows of a block that they stay where none of them passes all tests, and gives the block behind it.
fn end_block(stays: &mut [bool], block: OpenBlock) -> OpenBlock
    requires { block.start + block.read ≤ length stays.old }
    ensures start { result.start ≡ block.start + block.read }
    ensures read { result.read ≡ 0 }
    ensures passes { result.passes ≡ false }
    ensures told { stays.new ≡ if block.passes then stays.old else (take block.start stays.old ++ replicate block.read true ++ drop (block.start + block.read) stays.old) }
{
    let end = block.start + block.read;
    if !block.passes {
        stays[block.start..end].fill(true);
    }
    block_from(end)
}

/// Tells of each of some rows whether it stays: it passes all tests, or none of those of its key does. One walk over the rows.
fn tell_blocks(stays: &mut [bool], rows: &Rows<'_>, key: &[u32], tests: &[ColumnTest])
    requires each { length stays.old ≡ length rows.now }
    requires in_order { IsStrictlySortedBy (block_cmp key.now) rows.now }
    ensures { (passes : List Cell → Bool) → DecidesTests tests.now passes → stays.new ≡ map (stays_among key.now passes rows.now) rows.now }
{
    let mut left = rows.again();
    let Some(first) = left.next() else {
        return;
    };
    let mut last = first;
    let mut block = read_row(stays, block_from(0), first, tests);
    while let Some(row) = left.next() {
        if same_key(key, last, row) {
            block = read_row(stays, block, row, tests);
        } else {
            let next = end_block(stays, block);
            block = read_row(stays, next, row, tests);
        }
        last = row;
    }
    let _ = end_block(stays, block);
}

/// The place of the first row of a block from which on about so many rows of some are told at a time: the last ones.
fn last_start(rows: &Rows<'_>, key: &[u32]) -> usize
    requires some { 0 < length rows.now }
    requires in_order { IsStrictlySortedBy (block_cmp key.now) rows.now }
    ensures before { result < length rows.now }
    ensures begins { BlocksBegin key.now rows.now result }
{
    block_start(rows, key, rows.len().saturating_sub(AT_A_TIME))
}

/// Tells of the last of some rows whether they stay beside the others of these, and gives the place of the first row of which it
/// is told.
fn tell_last(stays: &mut [bool], rows: &Rows<'_>, key: &[u32], tests: &[ColumnTest]) -> usize
    requires some { 0 < length rows.now }
    requires room { length rows.now ≤ length stays.old }
    requires in_order { IsStrictlySortedBy (block_cmp key.now) rows.now }
    ensures before { result < length rows.now }
    ensures begins { BlocksBegin key.now rows.now result }
    ensures told { (passes : List Cell → Bool) → DecidesTests tests.now passes → take (length rows.now - result) stays.new ≡ map (stays_among key.now passes (drop result rows.now)) (drop result rows.now) }
{
    let start = last_start(rows, key);
    let (_, last) = rows.split_at(start);
    tell_blocks(&mut stays[..last.len()], &last, key, tests);
    start
}

/// Takes the rows out that don't stay of the last ones before a place of a stretch, and gives the place in it from which on it
/// did so. Nothing is asked of what is told.
fn keep_last(
    db: &mut Database,
    table: u32,
    tests: &[ColumnTest],
    from: usize,
    end: usize,
    stays: &mut [bool],
) -> usize
    requires there { table < length db.old }
    requires some { 0 < end }
    requires within { from + end ≤ length (rows_at db.old table) }
    requires room { end ≤ length stays.old }
    ensures before { result < end }
    ensures begins { BlocksBegin (key_at db.old table) (take end (drop from (rows_at db.old table))) result }
    ensures kept { (passes : List Cell → Bool) → DecidesTests tests.now passes → db.new ≡ with_rows db.old table ((take (from + result) (rows_at db.old table) ++ staying (key_at db.old table) passes (drop result (take end (drop from (rows_at db.old table))))) ++ drop (from + end) (rows_at db.old table)) }
    ensures stored { AreValidTables db.new }
{
    let (_, rest) = db.rows(table).split_at(from);
    let (front, _) = rest.split_at(end);
    let start = tell_last(stays, &front, key_of(db, table), tests);
    db.keep_told(table, from + start, &stays[..end - start]);
    start
}

/// Takes the rows out that don't stay beside the others of a stretch: some at a time, from the last ones on, so that a row that
/// goes was read just before. The stretch is as long as what has room to be told of it.
fn keep_staying(
    db: &mut Database,
    table: u32,
    tests: &[ColumnTest],
    from: usize,
    stays: &mut [bool],
)
    requires there { table < length db.old }
    requires within { from + length stays.old ≤ length (rows_at db.old table) }
    ensures kept { (passes : List Cell → Bool) → DecidesTests tests.now passes → db.new ≡ with_rows db.old table ((take from (rows_at db.old table) ++ staying (key_at db.old table) passes (take (length stays.old) (drop from (rows_at db.old table)))) ++ drop (from + length stays.old) (rows_at db.old table)) }
    ensures stored { AreValidTables db.new }
{
    let _tables = db.count();
    let mut end = stays.len();
    while end > 0 {
        end = keep_last(db, table, tests, from, end, stays);
    }
}

/// Keeps of each block of a table in which some row passes all tests the rows that do, and all rows of the other blocks. Gives
/// the number of rows that are taken out.
///
/// # Errors
///
/// `NoMemory` where memory is refused. Nothing has changed then.
pub fn prefer(db: &mut Database, table: u32, tests: &[ColumnTest]) -> Result<u32, NoMemory>
    requires { table < length db.old }
    ensures preferred { IfOk result (λ count. Prefers db.old table tests.now db.new count) }
    ensures err { OnErr result (db.new ≡ db.old) }
    ensures stored { AreValidTables db.new }
{
    let _tables = db.count();
    let before = db.rows(table).len();
    let (from, to) = db.told_places(table, tests);
    prove!(from <= to && to <= before);
    let mut stays = Vec::new(db.allocator());
    stays.resize(to - from, false)?;
    keep_staying(db, table, tests, from, stays.as_mut_slice());
    drop(stays);
    Ok((before - db.rows(table).len()) as u32)
}
