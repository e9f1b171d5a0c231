//! Appends how much of each table breaks its key.

ghost use Rattle.std.specs.Prelude.{◌≡◌, ◌++◌, OnOk};
ghost use Rattle.reply_text.specs.Texts.{conflict_text, contested_text};

use crate::ConflictLine;
use crate::append::{append_counted, append_name, append_numbered, append_words};
use cqa_value::NoMemory;

/// Appends each table on a line of its own, and how many they are.
pub fn append_contested(lines: &[ConflictLine], out: &mut Vec<u8>) -> Result<(), NoMemory>
    ensures { OnOk result (out.new.items ≡ out.old.items ++ contested_text lines.now) }
{
    for line in lines {
        append_conflict(line, out)?;
        append_words("\n", out)?;
    }
    append_counted(lines.len(), " tables", out)
}

/// Appends how much of a table breaks its key.
fn append_conflict(line: &ConflictLine, out: &mut Vec<u8>) -> Result<(), NoMemory>
    ensures { OnOk result (out.new.items ≡ out.old.items ++ conflict_text line.now) }
{
    append_name(&line.name, out)?;
    append_numbered(" rows ", line.rows, out)?;
    append_numbered(" blocks ", line.blocks, out)?;
    append_numbered(" conflicts ", line.conflicts, out)
}
