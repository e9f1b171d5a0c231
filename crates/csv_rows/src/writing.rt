//! Writing rows as records, each field between quotes.

ghost use Rattle.std.specs.Prelude.{◌≡◌, ◌++◌, [], All, IfOk, OnOk, map};
ghost use Rattle.cqa_model.specs.declared.schema.Schema.{Schema};
ghost use Rattle.cqa_model.specs.Database.{kinds_of, IsRowOf};
ghost use Rattle.csv.specs.Records.{fields_of};
ghost use Rattle.csv.specs.Writing.{row_text, writer_setup};
ghost use Rattle.cqa_value.specs.Valid.{IsValidRow};
ghost use Rattle.csv_rows.specs.Blocks.{HoldsRows};
ghost use Rattle.csv_rows.specs.Ends.{plain_rows};
ghost use Rattle.csv_rows.specs.Texts.{IsBetweenRecords, quoting, record_bytes, rows_bytes, value_bytes, written};

use crate::ends::row_has_end;
use crate::record::set_record;
use cqa_value::{NoMemory, Row};
use csv::{ByteRecord, QuoteStyle, Writer, WriterBuilder};
use row_pieces::Rows;
use std::alloc::Global;

/// A writer of records that goes on at the end of a text.
fn writer_to(text: Vec<u8>) -> Writer<Vec<u8>>
    ensures setup { writer_setup result ≡ quoting }
    ensures between { IsBetweenRecords result }
    ensures text { written result ≡ text.items }
{
    WriterBuilder::new()
        .quote_style(QuoteStyle::Always)
        .flexible(true)
        .from_writer(text)
}

/// Writes a record.
fn write_record(writer: &mut Writer<Vec<u8>>, fields: &ByteRecord) -> Result<(), NoMemory>
    requires setup { writer_setup writer.old ≡ quoting }
    requires between { IsBetweenRecords writer.old }
    ensures text { OnOk result (written writer.new ≡ written writer.old ++ row_text (writer_setup writer.old) (fields_of fields.now)) }
    ensures setup { OnOk result (writer_setup writer.new ≡ quoting) }
    ensures between { OnOk result (IsBetweenRecords writer.new) }
{
    match writer.write_byte_record(fields) {
        Ok(()) => Ok(()),
        Err(_) => Err(NoMemory),
    }
}

/// Writes a record for each row.
fn write_records(alloc: Global, rows: &[Row], writer: &mut Writer<Vec<u8>>) -> Result<(), NoMemory>
    requires setup { writer_setup writer.old ≡ quoting }
    requires between { IsBetweenRecords writer.old }
    requires empty { written writer.old ≡ [] }
    ensures text { OnOk result (written writer.new ≡ rows_bytes rows.now) }
    ensures stored { OnOk result (All IsValidRow rows.now) }
{
    let mut record = ByteRecord::new(alloc);
    for row in rows {
        set_record(row, &mut record)?;
        write_record(writer, &record)?;
    }
    Ok(())
}

/// What a writer has written.
fn finish(writer: Writer<Vec<u8>>) -> Result<Vec<u8>, NoMemory>
    ensures { IfOk result (λ text. text.items ≡ written writer) }
{
    match writer.into_inner() {
        Ok(text) => Ok(text),
        Err(_) => Err(NoMemory),
    }
}

/// The rows as a block of CSV: a record for each row, each field between quotes, integers in decimal.
///
/// # Errors
///
/// `NoMemory` where memory is refused.
pub fn write_rows(alloc: Global, rows: &[Row]) -> Result<Vec<u8>, NoMemory>
    ensures text { IfOk result (λ text. text.items ≡ rows_bytes rows.now) }
    // What is written of rows of a schema is read as the same rows.
    ensures again { IfOk result (λ text. (schema : Schema) → All (IsRowOf schema) rows.now → HoldsRows (kinds_of schema) text.items rows.now) }
{
    let mut writer = writer_to(Vec::new(alloc));
    match write_records(alloc, rows, &mut writer) {
        Ok(()) => finish(writer),
        Err(NoMemory) => {
            drop(writer);
            Err(NoMemory)
        }
    }
}

/// Writes the record of a row.
fn write_row(
    row: &Row,
    record: &mut ByteRecord,
    writer: &mut Writer<Vec<u8>>,
) -> Result<(), NoMemory>
    requires setup { writer_setup writer.old ≡ quoting }
    requires between { IsBetweenRecords writer.old }
    ensures text { OnOk result (written writer.new ≡ written writer.old ++ record_bytes (map value_bytes row.now)) }
    ensures setup { OnOk result (writer_setup writer.new ≡ quoting) }
    ensures between { OnOk result (IsBetweenRecords writer.new) }
{
    set_record(row, record)?;
    write_record(writer, record)
}

/// Writes a record for each row that can stand in a block.
fn write_plain(alloc: Global, rows: &Rows<'_>, writer: &mut Writer<Vec<u8>>) -> Result<(), NoMemory>
    requires setup { writer_setup writer.old ≡ quoting }
    requires between { IsBetweenRecords writer.old }
    ensures { OnOk result (written writer.new ≡ written writer.old ++ rows_bytes (plain_rows rows.now)) }
{
    let mut record = ByteRecord::new(alloc);
    for row in rows.again() {
        if !row_has_end(row) {
            write_row(row, &mut record, writer)?;
        }
    }
    Ok(())
}

/// Appends the rows that can stand in a block of CSV: a record for each, each field between quotes, integers in decimal.
/// A row can't where a text of it has a line that would end the block.
///
/// # Errors
///
/// `NoMemory` where memory is refused.
pub fn append_block(alloc: Global, rows: &Rows<'_>, text: Vec<u8>) -> Result<Vec<u8>, NoMemory>
    ensures { IfOk result (λ out. out.items ≡ text.items ++ rows_bytes (plain_rows rows.now)) }
{
    let mut writer = writer_to(text);
    match write_plain(alloc, rows, &mut writer) {
        Ok(()) => finish(writer),
        Err(NoMemory) => {
            drop(writer);
            Err(NoMemory)
        }
    }
}
