//! The statements that make a table with its rows.

ghost use Rattle.std.specs.Prelude.{◌≡◌, ◌++◌, IfOk, OnOk, not};
ghost use Rattle.std.specs.List.{flat_map, list_any};
ghost use Rattle.csv_rows.specs.Ends.{other_rows, plain_rows, row_has_end};
ghost use Rattle.csv_rows.specs.Texts.{rows_bytes};
ghost use Rattle.schema_text.specs.Text.{schema_bytes};
ghost use Rattle.csv_rows.specs.Dumps.{copy_text, create_words, insert_text, dump_of_table};

use crate::ends::row_has_end;
use crate::writing::append_block;
use cqa_model::Schema;
use cqa_value::{Name, NoMemory, Row, row_text};
use row_pieces::Rows;
use schema_text::schema_text;
use std::alloc::Global;
use std::mem;

/// A text with the statements behind it that make a table with its rows: it is made, the rows that can stand in a block
/// of CSV are copied, and each other row is inserted.
///
/// # Errors
///
/// `NoMemory` where memory is refused. The text is gone then.
pub fn append_table(
    alloc: Global,
    schema: &Schema,
    rows: &Rows<'_>,
    text: Vec<u8>,
) -> Result<Vec<u8>, NoMemory>
    ensures { IfOk result (λ out. out.items ≡ text.items ++ dump_of_table schema.now rows.now) }
{
    let mut out = text;
    append_create(schema, &mut out)?;
    out.extend_from_slice(b";\n")?;
    append_copy(alloc, &schema.name, rows, &mut out)?;
    append_inserts(&schema.name, rows, &mut out)?;
    Ok(out)
}

/// Appends the statement that makes a table, without its end.
///
/// # Errors
///
/// `NoMemory` where memory is refused.
pub fn append_create(schema: &Schema, out: &mut Vec<u8>) -> Result<(), NoMemory>
    ensures { OnOk result (out.new.items ≡ out.old.items ++ (create_words schema.now.strict ++ schema_bytes schema.now)) }
{
    out.extend_from_slice(words_of(schema.strict).as_bytes())?;
    schema_text(schema, out)
}

/// What stands before the schema of a table that is made.
fn words_of(strict: bool) -> &'static str
    ensures { result.now ≡ create_words strict }
{
    if strict {
        "create strict table "
    } else {
        "create table "
    }
}

/// Appends the statement that copies the rows that can stand in a block, where there are any.
fn append_copy(
    alloc: Global,
    name: &Name,
    rows: &Rows<'_>,
    out: &mut Vec<u8>,
) -> Result<(), NoMemory>
    ensures { OnOk result (out.new.items ≡ out.old.items ++ copy_text name.now (plain_rows rows.now)) }
{
    if !has_plain(rows) {
        return Ok(());
    }
    out.extend_from_slice(b"copy ")?;
    out.extend_from_slice(name.bytes())?;
    out.extend_from_slice(b";\n")?;
    append_records(alloc, rows, out)?;
    out.extend_from_slice(b"\\.\n")?;
    Ok(())
}

/// Whether some row can stand in a block.
fn has_plain(rows: &Rows<'_>) -> bool
    ensures { result ≡ list_any (λ row. not (row_has_end row)) rows.now }
{
    for row in rows.again() {
        if !row_has_end(row) {
            return true;
        }
    }
    false
}

/// Appends the records of the rows that can stand in a block.
fn append_records(alloc: Global, rows: &Rows<'_>, out: &mut Vec<u8>) -> Result<(), NoMemory>
    ensures { OnOk result (out.new.items ≡ out.old.items ++ rows_bytes (plain_rows rows.now)) }
{
    let text = mem::replace(out, Vec::new(alloc));
    *out = append_block(alloc, rows, text)?;
    Ok(())
}

/// Appends a statement for each row that can't stand in a block.
fn append_inserts(name: &Name, rows: &Rows<'_>, out: &mut Vec<u8>) -> Result<(), NoMemory>
    ensures { OnOk result (out.new.items ≡ out.old.items ++ flat_map (λ row. insert_text name.now row) (other_rows rows.now)) }
{
    for row in rows.again() {
        if row_has_end(row) {
            append_insert(name, row, out)?;
        }
    }
    Ok(())
}

/// Appends the statement that inserts a row.
fn append_insert(name: &Name, row: &Row, out: &mut Vec<u8>) -> Result<(), NoMemory>
    ensures { OnOk result (out.new.items ≡ out.old.items ++ insert_text name.now row.now) }
{
    out.extend_from_slice(b"insert into ")?;
    out.extend_from_slice(name.bytes())?;
    out.extend_from_slice(b" values ")?;
    row_text(row, out)?;
    out.extend_from_slice(b";\n")?;
    Ok(())
}
