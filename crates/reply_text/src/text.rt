//! The text of a reply, a line at a time.

ghost use Rattle.std.specs.Prelude.{◌≡◌, ◌++◌, IfOk, OnOk, codes};
ghost use Rattle.reply_text.specs.Texts.{last_end, reply_lines, reply_parts, reply_text, rows_text, table_text, tables_text};

use crate::append::{append_bytes, append_counted, append_named, append_numbered, append_words};
use crate::classified::append_classified;
use crate::contested::append_contested;
use crate::explained::{append_against, append_by_block, append_by_refutation, append_rejected};
use crate::logged::append_proof;
use crate::planned::append_steps;
use crate::ranged::{append_groups, append_range};
use crate::refused::append_refusal;
use crate::united::{append_classified_parts, append_shares, append_union};
use crate::{Reply, TableLine};
use cqa_value::{NoMemory, Row, row_text};
use schema_text::schema_text;
use std::alloc::Global;

/// The text of a reply: its lines, each with a line feed at its end.
///
/// # Errors
///
/// `NoMemory` where memory is refused.
pub fn reply_bytes(alloc: Global, reply: &Reply) -> Result<Vec<u8>, NoMemory>
    ensures { IfOk result (λ bytes. bytes.items ≡ reply_text reply.now) }
{
    let mut out = Vec::new(alloc);
    append_reply(alloc, reply, &mut out)?;
    Ok(out)
}

/// Appends the lines of a reply, each with a line feed at its end.
fn append_reply(alloc: Global, reply: &Reply, out: &mut Vec<u8>) -> Result<(), NoMemory>
    ensures { OnOk result (out.new.items ≡ out.old.items ++ reply_text reply.now) }
{
    append_lines(alloc, reply, out)?;
    append_words(last_end(reply), out)
}

/// What ends the last line of a reply: a line feed, but of a query in SQL, a certificate, a dump and a proof, whose lines have
/// theirs.
fn last_end(reply: &Reply) -> &'static str
    ensures { result.now ≡ last_end reply.now }
{
    match reply {
        Reply::Sql(_)
        | Reply::SqlParts(_)
        | Reply::Certificate(_)
        | Reply::Dumped(_)
        | Reply::KeptLog(_)
        | Reply::ByRefutation(_) => "",
        _ => "\n",
    }
}

/// Appends the lines of a reply without what ends the last of them.
fn append_lines(alloc: Global, reply: &Reply, out: &mut Vec<u8>) -> Result<(), NoMemory>
    ensures { OnOk result (out.new.items ≡ out.old.items ++ reply_lines reply.now) }
{
    append_short(reply, out)?;
    append_long(alloc, reply, out)
}

/// Appends the line of a reply that is a few words, with a name or a number behind them; nothing of any other.
fn append_short(reply: &Reply, out: &mut Vec<u8>) -> Result<(), NoMemory>
    ensures { OnOk result (out.new.items ≡ out.old.items ++ (reply_parts reply.now).0) }
{
    match reply {
        Reply::Created(name) => append_named("created ", name, out),
        Reply::Altered(name) => append_named("altered ", name, out),
        Reply::Inserted(count) => append_numbered("inserted ", *count, out),
        Reply::Deleted(count) => append_numbered("deleted ", *count, out),
        Reply::Copied(count) => append_numbered("copied ", *count, out),
        Reply::NoPlan => append_words("no plan", out),
        Reply::NoPlanOf(part) => append_numbered("no plan part ", *part, out),
        Reply::Certain => append_words("certain", out),
        Reply::Conflicts(budget) => append_numbered("conflicts ", *budget, out),
        Reply::NoLog => append_words("no log", out),
        _ => Ok(()),
    }
}

/// Appends the lines of any other reply, without what ends the last of them; nothing of one that is a few words.
fn append_long(alloc: Global, reply: &Reply, out: &mut Vec<u8>) -> Result<(), NoMemory>
    ensures { OnOk result (out.new.items ≡ out.old.items ++ (reply_parts reply.now).1) }
{
    match reply {
        Reply::Rows(rows) => append_rows(rows.as_slice(), out),
        Reply::Classified { class, lines } => append_classified(*class, lines.as_slice(), out),
        Reply::ClassifiedParts { parts, shared } => {
            append_classified_parts(parts.as_slice(), shared, out)
        }
        Reply::Steps(names) => append_steps(names.as_slice(), out),
        Reply::Sql(bytes) | Reply::Certificate(bytes) | Reply::Dumped(bytes) => {
            append_bytes(bytes.as_slice(), out)
        }
        Reply::SqlParts(texts) => append_union(texts.as_slice(), out),
        Reply::Shares {
            first,
            second,
            table,
        } => append_shares(*first, *second, table, out),
        Reply::Rejected(lines) => append_rejected(lines.as_slice(), out),
        Reply::Against(lines) => append_against(lines.as_slice(), out),
        Reply::ByBlock { table, key } => append_by_block(table, key, out),
        Reply::ByRefutation(proof) => append_by_refutation(alloc, proof, out),
        Reply::Range {
            least,
            low,
            greatest,
            high,
        } => append_range(least, low.as_slice(), greatest, high.as_slice(), out),
        Reply::Groups(lines) => append_groups(lines.as_slice(), out),
        Reply::Tables(lines) => append_tables(lines.as_slice(), out),
        Reply::Contested(lines) => append_contested(lines.as_slice(), out),
        Reply::KeptLog(proof) => append_proof(alloc, proof, out),
        Reply::Refused(refusal) => append_refusal(refusal, out),
        _ => Ok(()),
    }
}

/// Appends each row on a line of its own, and how many they are.
fn append_rows(rows: &[Row], out: &mut Vec<u8>) -> Result<(), NoMemory>
    ensures { OnOk result (out.new.items ≡ out.old.items ++ rows_text rows.now) }
{
    for row in rows {
        row_text(row, out)?;
        append_words("\n", out)?;
    }
    append_counted(rows.len(), " rows", out)
}

/// Appends each table on a line of its own, and how many they are.
fn append_tables(lines: &[TableLine], out: &mut Vec<u8>) -> Result<(), NoMemory>
    ensures { OnOk result (out.new.items ≡ out.old.items ++ tables_text lines.now) }
{
    for line in lines {
        append_table(line, out)?;
    }
    append_counted(lines.len(), " tables", out)
}

/// Appends the line of a table with its line feed.
fn append_table(line: &TableLine, out: &mut Vec<u8>) -> Result<(), NoMemory>
    ensures { OnOk result (out.new.items ≡ out.old.items ++ (table_text line.now ++ codes "\n")) }
{
    if line.schema.strict {
        append_words("strict ", out)?;
    }
    schema_text(&line.schema, out)?;
    append_numbered(" rows ", line.rows, out)?;
    append_numbered(" blocks ", line.blocks, out)?;
    append_words("\n", out)
}
