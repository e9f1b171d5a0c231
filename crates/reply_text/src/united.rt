//! Appends what is told of the parts of a union.

ghost use Rattle.std.specs.Prelude.{◌≡◌, ◌<◌, ◌^◌, ◌++◌, OnOk};
ghost use Rattle.reply_text.specs.Texts.{meeting_text, numbered_pieces, part_text, parts_text, shares_text, sql_part_end, sql_part_start, sql_part_text, unended, union_text};

use crate::PartClass;
use crate::append::{append_bytes, append_named, append_number, append_numbered, append_words};
use crate::classified::append_classified;
use cqa_value::{Items, Name, NoMemory};

/// Appends the class of each part behind its number from 1, and whether the parts are apart.
pub fn append_classified_parts(
    parts: &[PartClass],
    shared: &Option<Name>,
    out: &mut Vec<u8>,
) -> Result<(), NoMemory>
    ensures { OnOk result (out.new.items ≡ out.old.items ++ (parts_text parts.now ++ meeting_text shared.now)) }
{
    append_parts(parts, out)?;
    append_meeting(shared, out)
}

/// Appends the class of each part, numbered from 1.
fn append_parts(parts: &[PartClass], out: &mut Vec<u8>) -> Result<(), NoMemory>
    ensures { OnOk result (out.new.items ≡ out.old.items ++ parts_text parts.now) }
{
    for (before, part) in parts.iter().enumerate() {
        append_part(before, part, out)?;
    }
    Ok(())
}

/// Appends the class of a part, with so many parts before it.
fn append_part(before: usize, part: &PartClass, out: &mut Vec<u8>) -> Result<(), NoMemory>
    requires { before < 2 ^ 63 }
    ensures { OnOk result (out.new.items ≡ out.old.items ++ part_text before part.now) }
{
    append_words("part ", out)?;
    append_number(before + 1, out)?;
    append_words("\n", out)?;
    append_classified(part.class, part.lines.as_slice(), out)?;
    append_words("\n", out)
}

/// Appends whether the parts are apart, or which table two of them share.
fn append_meeting(shared: &Option<Name>, out: &mut Vec<u8>) -> Result<(), NoMemory>
    ensures { OnOk result (out.new.items ≡ out.old.items ++ meeting_text shared.now) }
{
    match shared {
        None => append_words("apart", out),
        Some(table) => append_named("together ", table, out),
    }
}

/// Appends the query of a union, whose parts have these texts in SQL.
pub fn append_union(texts: &[Items<u8>], out: &mut Vec<u8>) -> Result<(), NoMemory>
    ensures { OnOk result (out.new.items ≡ out.old.items ++ union_text texts.now) }
{
    append_sql_parts(texts, out)?;
    append_words(";\n", out)
}

/// Appends each part as a table of its own.
fn append_sql_parts(texts: &[Items<u8>], out: &mut Vec<u8>) -> Result<(), NoMemory>
    ensures { OnOk result (out.new.items ≡ out.old.items ++ numbered_pieces sql_part_text 0 texts.now) }
{
    for (before, text) in texts.iter().enumerate() {
        append_sql_part(before, text.as_slice(), out)?;
    }
    Ok(())
}

/// Appends a part as a table of its own, with so many parts before it.
fn append_sql_part(before: usize, text: &[u8], out: &mut Vec<u8>) -> Result<(), NoMemory>
    requires { before < 2 ^ 63 }
    ensures { OnOk result (out.new.items ≡ out.old.items ++ sql_part_text before text.now) }
{
    append_words(part_words(before), out)?;
    append_bytes(unended(text), out)?;
    append_part_end(before, out)
}

/// What stands before a part: the first one begins its text, any other a line.
fn part_words(before: usize) -> &'static str
    ensures { result.now ≡ sql_part_start before }
{
    if before == 0 {
        "SELECT * FROM (\n"
    } else {
        "\nUNION SELECT * FROM (\n"
    }
}

/// A text without the `;` and the line feed at its end.
fn unended(text: &[u8]) -> &[u8]
    ensures { result.now ≡ unended text.now }
{
    &text[..text.len().saturating_sub(2)]
}

/// Appends what stands behind a part, with so many parts before it.
fn append_part_end(before: usize, out: &mut Vec<u8>) -> Result<(), NoMemory>
    requires { before < 2 ^ 63 }
    ensures { OnOk result (out.new.items ≡ out.old.items ++ sql_part_end before) }
{
    append_words("\n) AS \"part ", out)?;
    append_number(before + 1, out)?;
    append_words("\"", out)
}

/// Appends which table two parts share.
pub fn append_shares(
    first: u32,
    second: u32,
    table: &Name,
    out: &mut Vec<u8>,
) -> Result<(), NoMemory>
    ensures { OnOk result (out.new.items ≡ out.old.items ++ shares_text first second table.now) }
{
    append_numbered("no sql parts ", first, out)?;
    append_numbered(" and ", second, out)?;
    append_named(" share ", table, out)
}
