//! Reading a block: the rows that its records are.

ghost use Rattle.std.specs.Prelude.{◌≡◌, ◌≤◌, ◌<◌, ◌^◌, ◌++◌, ◌∷◌, [], List, Contains, Some, IfOk, IfErr, IsTrue, OnOk, length, map};
ghost use Rattle.std.specs.List.Sorted.{IsStrictlySortedBy};
ghost use Rattle.cqa_value.specs.declared.value.Value.{Value as Cell};
ghost use Rattle.cqa_value.specs.Values.{kind_of};
ghost use Rattle.cqa_value.specs.Valid.{IsValidRow};
ghost use Rattle.cqa_value.specs.declared.row.TheConstants.{MOST_COLUMNS};
ghost use Rattle.cqa_model.specs.Database.{block_cmp, kinds_of};
ghost use Rattle.csv.specs.Reading.{ReadRecord, Ready, reader_source, reader_trim};
ghost use Rattle.csv.specs.Records.{fields_of};
ghost use Rattle.csv.specs.declared.reader.Trim.TheVariants.{None as NoTrim};
ghost use Rattle.csv_rows.specs.Blocks.{HoldsRows, IsRefusedRecord, IsAtStart, IsOneEmpty, kinds};

use crate::record::row_of;
use cqa_model::{Column, Schema};
use cqa_value::{Fail, NoMemory, Row};
use csv::{ByteRecord, Reader, ReaderBuilder};
use refusals::Refusal;
use row_order::block_compare;
use row_pieces::Pieces;
use std::alloc::Global;
use std::mem::replace;

/// The bytes that there is room for in a record at first: all that a reader looks at in one go, so that it seldom stops within
/// a record.
const RECORD_ROOM: usize = 8_192;

/// The rows of a block: those that are sorted, and the rest behind them. Either has none where the other has some.
#[derive(Drop)]
pub struct BlockRows {
    /// Rows in the pieces in which a table holds its rows. Each comes before the next one in the block order of the table's key.
    pub sorted: Pieces,

    /// Rows in any order.
    pub rest: Vec<Row>,
}

impl BlockRows {
    /// Puts a row behind the others. They are moved to the rest once one doesn't come behind all before it.
    ///
    /// # Errors
    ///
    /// `NoMemory` where memory is refused; rows may be gone then.
    fn push(&mut self, key: &[u32], row: Row) -> Result<(), NoMemory>
        requires ascending { IsStrictlySortedBy (block_cmp key.now) self.old.sorted }
        requires either { IsOneEmpty self.old.sorted self.old.rest.items }
        ensures rows { OnOk result (self.new.sorted ++ self.new.rest.items ≡ (self.old.sorted ++ self.old.rest.items) ++ row ∷ []) }
        ensures ascending { OnOk result (IsStrictlySortedBy (block_cmp key.now) self.new.sorted) }
        ensures either { OnOk result (IsOneEmpty self.new.sorted self.new.rest.items) }
    {
        if self.rest.is_empty() {
            if comes_behind(&self.sorted, key, &row) {
                return self.sorted.push(row);
            }
            let sorted = replace(&mut self.sorted, Pieces::new(*self.rest.allocator()));
            self.rest = sorted.into_vec()?;
        }
        self.rest.push(row)?;
        Ok(())
    }
}

/// Says yes only where rows that ascend still do with one more behind them.
fn comes_behind(rows: &Pieces, key: &[u32], row: &Row) -> bool
    ensures { IsTrue result → IsStrictlySortedBy (block_cmp key.now) rows.now → IsStrictlySortedBy (block_cmp key.now) (rows.now ++ row.now ∷ []) }
{
    match rows.last() {
        Some(last) => block_compare(key, last, row).is_lt(),
        None => true,
    }
}

/// Reads the next record, and tells whether there was one.
fn next_record(reader: &mut Reader<&[u8]>, fields: &mut ByteRecord) -> Result<bool, NoMemory>
    requires untrimmed { reader_trim reader.old ≡ NoTrim }
    requires ready { Ready reader.old }
    ensures reads { IfOk result (λ found. ReadRecord (λ s. Some s.now) reader.old reader.new found (fields_of fields.new)) }
    ensures ready { OnOk result (Ready reader.new) }
{
    match reader.read_byte_record(fields) {
        Ok(found) => Ok(found),
        Err(_) => Err(NoMemory),
    }
}

/// Reads all records of a reader that has read none yet, one after another into the same record, and appends the row of each.
fn read_into(
    alloc: Global,
    columns: &[Column],
    key: &[u32],
    reader: &mut Reader<&[u8]>,
    record: &mut ByteRecord,
    block: &mut BlockRows,
) -> Result<(), Fail<Refusal>>
    requires few { length columns.now ≤ MOST_COLUMNS }
    requires start { IsAtStart reader.old }
    requires empty { (block.old.sorted ≡ []) × (block.old.rest.items ≡ []) }
    ensures rows { OnOk result (HoldsRows (kinds columns.now) (reader_source reader.old).now (block.new.sorted ++ block.new.rest.items)) }
    ensures ascending { OnOk result (IsStrictlySortedBy (block_cmp key.now) block.new.sorted) }
    ensures either { OnOk result (IsOneEmpty block.new.sorted block.new.rest.items) }
    ensures refused { IfErr result (λ fault. IsRefusedRecord (kinds columns.now) (reader_source reader.old).now fault) }
    ensures few_rows { OnOk result (length (block.new.sorted ++ block.new.rest.items) < 2 ^ 32) }
{
    for number in 1..=u32::MAX {
        if !next_record(reader, record)? {
            return Ok(());
        }
        match row_of(alloc, columns, record)? {
            Some(row) => block.push(key, row)?,
            None => return Err(Fail::Refused(Refusal::BadCsv { number })),
        }
    }
    Err(Fail::NoMemory)
}

/// The rows that the records of a block are, for a table of this schema: a field for each column, an int column's an
/// integer in range, a text column's a UTF-8 text of at most 1,024 bytes. The records are those that the crate `csv` reads:
/// commas between fields, quotes around fields that hold commas, quotes or line feeds, and no header. As long as rows
/// ascend, each is compared with the one before it, and with no other.
///
/// # Errors
///
/// `BadCsv` with the number, from 1, of the first record that is no row; `NoMemory` where memory is refused.
pub fn read_rows(alloc: Global, schema: &Schema, block: &[u8]) -> Result<BlockRows, Fail<Refusal>>
    ensures rows { IfOk result (λ read. HoldsRows (kinds_of schema.now) block.now (read.sorted ++ read.rest.items)) }
    ensures fits { IfOk result (λ read. (row : List Cell) → Contains (read.sorted ++ read.rest.items) row → map kind_of row ≡ kinds_of schema.now) }
    ensures valid { IfOk result (λ read. (row : List Cell) → Contains (read.sorted ++ read.rest.items) row → IsValidRow row) }
    ensures ascending { IfOk result (λ read. IsStrictlySortedBy (block_cmp schema.now.key) read.sorted) }
    ensures either { IfOk result (λ read. IsOneEmpty read.sorted read.rest.items) }
    ensures refused { IfErr result (λ fault. IsRefusedRecord (kinds_of schema.now) block.now fault) }
    ensures few { IfOk result (λ read. length (read.sorted ++ read.rest.items) < 2 ^ 32) }
{
    let columns = schema.columns.as_slice();
    let mut record = ByteRecord::with_capacity(alloc, RECORD_ROOM, columns.len())?;
    let mut reader = ReaderBuilder::new()
        .has_headers(false)
        .flexible(true)
        .from_reader(alloc, block);
    let mut rows = BlockRows {
        sorted: Pieces::new(alloc),
        rest: Vec::new(alloc),
    };
    let read = read_into(
        alloc,
        columns,
        schema.key.as_slice(),
        &mut reader,
        &mut record,
        &mut rows,
    );
    drop(record);
    drop(reader);
    match read {
        Ok(()) => Ok(rows),
        Err(fault) => {
            drop(rows);
            Err(fault)
        }
    }
}
