//! How a schema is written.

ghost use Rattle.std.specs.Prelude.{◌≡◌, ◌<◌, ◌++◌, OnOk, OnErr, All, codes, length};
ghost use Rattle.std.specs.List.{flat_map, join_by};
ghost use Rattle.cqa_model.specs.Shape.{column_at};
ghost use Rattle.schema_text.specs.Text.{column_text, columns_text, key_text, kind_word, schema_bytes};

use cqa_model::{Column, Schema};
use cqa_value::{Kind, NoMemory};

/// Appends `NAME (COLUMN KIND, COLUMN KIND, primary key (COLUMN, COLUMN))`, with as many columns as the schema and its
/// key have. Whether the table is strict isn't said.
///
/// # Errors
///
/// `NoMemory` where memory is refused; `out` is then as it was.
pub fn schema_text(schema: &Schema, out: &mut Vec<u8>) -> Result<(), NoMemory>
    ensures ok { OnOk result (out.new.items ≡ out.old.items ++ schema_bytes schema.now) }
    ensures err { OnErr result (out.new.items ≡ out.old.items) }
{
    let mut text = Vec::new(*out.allocator());
    append_schema(schema, &mut text)?;
    out.extend_from_slice(text.as_slice())?;
    Ok(())
}

fn append_schema(schema: &Schema, out: &mut Vec<u8>) -> Result<(), NoMemory>
    ensures { OnOk result (out.new.items ≡ out.old.items ++ schema_bytes schema.now) }
{
    append_named_columns(schema, out)?;
    append_key(schema, out)?;
    out.extend_from_slice(b")")?;
    Ok(())
}

fn append_named_columns(schema: &Schema, out: &mut Vec<u8>) -> Result<(), NoMemory>
    ensures { OnOk result (out.new.items ≡ out.old.items ++ columns_text schema.now) }
{
    out.extend_from_slice(schema.name.bytes())?;
    out.extend_from_slice(b" (")?;
    append_columns(schema.columns.as_slice(), out)
}

fn append_columns(columns: &[Column], out: &mut Vec<u8>) -> Result<(), NoMemory>
    ensures { OnOk result (out.new.items ≡ out.old.items ++ flat_map (λ column. column_text column ++ codes ", ") columns.now) }
{
    for column in columns {
        append_column(column, out)?;
        out.extend_from_slice(b", ")?;
    }
    Ok(())
}

fn append_column(column: &Column, out: &mut Vec<u8>) -> Result<(), NoMemory>
    ensures { OnOk result (out.new.items ≡ out.old.items ++ column_text column.now) }
{
    out.extend_from_slice(column.name.bytes())?;
    out.extend_from_slice(b" ")?;
    out.extend_from_slice(word_of(column.kind).as_bytes())?;
    Ok(())
}

fn append_key(schema: &Schema, out: &mut Vec<u8>) -> Result<(), NoMemory>
    ensures { OnOk result (out.new.items ≡ out.old.items ++ key_text schema.now) }
{
    out.extend_from_slice(b"primary key (")?;
    append_names(schema, schema.key.as_slice(), out)?;
    out.extend_from_slice(b")")?;
    Ok(())
}

fn append_names(schema: &Schema, places: &[u32], out: &mut Vec<u8>) -> Result<(), NoMemory>
    requires { All (λ place. place < length schema.now.columns) places.now }
    ensures { OnOk result (out.new.items ≡ out.old.items ++ join_by (λ place. (column_at schema.now.columns place).name) (codes ", ") places.now) }
{
    if let [first, rest @ ..] = places {
        append_name(schema, *first, out)?;
        append_rest(schema, rest, out)?;
    }
    Ok(())
}

fn append_rest(schema: &Schema, rest: &[u32], out: &mut Vec<u8>) -> Result<(), NoMemory>
    requires { All (λ place. place < length schema.now.columns) rest.now }
    ensures { OnOk result (out.new.items ≡ out.old.items ++ flat_map (λ place. codes ", " ++ (column_at schema.now.columns place).name) rest.now) }
{
    for place in rest {
        out.extend_from_slice(b", ")?;
        append_name(schema, *place, out)?;
    }
    Ok(())
}

fn append_name(schema: &Schema, place: u32, out: &mut Vec<u8>) -> Result<(), NoMemory>
    requires { place < length schema.now.columns }
    ensures { OnOk result (out.new.items ≡ out.old.items ++ (column_at schema.now.columns place).name) }
{
    out.extend_from_slice(schema.columns.as_slice()[place as usize].name.bytes())?;
    Ok(())
}

/// How a kind is written.
fn word_of(kind: Kind) -> &'static str
    ensures { result.now ≡ kind_word kind }
{
    match kind {
        Kind::Int => "int",
        Kind::Text => "text",
    }
}
