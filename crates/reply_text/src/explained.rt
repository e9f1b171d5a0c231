//! Appends why a row is certain, or why it isn't.

ghost use Rattle.std.specs.Prelude.{◌≡◌, ◌++◌, OnOk};
ghost use Rattle.reply_text.specs.Texts.{against_text, kept_text, kept_lines, rejected_text, block_text, refutation_text};

use crate::append::{append_counted, append_named, append_row, append_words};
use crate::logged::append_proof;
use crate::{KeptRow, Proof};
use cqa_value::{Name, NoMemory, Row};
use std::alloc::Global;

/// Appends that a row isn't certain, and a line for each row that a repair keeps.
pub fn append_rejected(lines: &[KeptRow], out: &mut Vec<u8>) -> Result<(), NoMemory>
    ensures { OnOk result (out.new.items ≡ out.old.items ++ rejected_text lines.now) }
{
    append_words("rejected", out)?;
    append_kept_rows(lines, out)
}

/// Appends each row that is kept on a new line.
pub fn append_kept_rows(lines: &[KeptRow], out: &mut Vec<u8>) -> Result<(), NoMemory>
    ensures { OnOk result (out.new.items ≡ out.old.items ++ kept_lines lines.now) }
{
    for line in lines {
        append_words("\n", out)?;
        append_kept(line, out)?;
    }
    Ok(())
}

/// Appends each row that stands against a row on a line of its own, and how many they are.
pub fn append_against(lines: &[KeptRow], out: &mut Vec<u8>) -> Result<(), NoMemory>
    ensures { OnOk result (out.new.items ≡ out.old.items ++ against_text lines.now) }
{
    for line in lines {
        append_kept(line, out)?;
        append_words("\n", out)?;
    }
    append_counted(lines.len(), " rows", out)
}

/// Appends a row that is kept.
fn append_kept(line: &KeptRow, out: &mut Vec<u8>) -> Result<(), NoMemory>
    ensures { OnOk result (out.new.items ≡ out.old.items ++ kept_text line.now) }
{
    append_named("keep ", &line.table, out)?;
    append_row(" ", &line.row, out)
}

/// Appends that a row is certain by the block of a table with these key values.
pub fn append_by_block(table: &Name, key: &Row, out: &mut Vec<u8>) -> Result<(), NoMemory>
    ensures { OnOk result (out.new.items ≡ out.old.items ++ block_text table.now key.now) }
{
    append_named("certain by block ", table, out)?;
    append_row(" ", key, out)
}

/// Appends that a row is certain by a refutation of its formula, and the formula with the log.
pub fn append_by_refutation(alloc: Global, proof: &Proof, out: &mut Vec<u8>) -> Result<(), NoMemory>
    ensures { OnOk result (out.new.items ≡ out.old.items ++ refutation_text proof.now) }
{
    append_words("certain by refutation\n", out)?;
    append_proof(alloc, proof, out)
}
