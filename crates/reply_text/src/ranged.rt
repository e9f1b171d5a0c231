//! Appends the least and the greatest value of an aggregate, over all rows or for each group of them.

ghost use Rattle.std.specs.Prelude.{◌≡◌, ◌++◌, OnOk, codes};
ghost use Rattle.reply_text.specs.Texts.{end_text, group_text, groups_text, kept_lines, range_text};

use crate::append::{append_counted, append_signed, append_words};
use crate::explained::append_kept_rows;
use crate::{GroupEnds, KeptRow};
use aggregate_range::End;
use cqa_value::{NoMemory, literal_text};

/// Appends the least and the greatest value, each with a line for each row that a repair which has it keeps.
pub fn append_range(
    least: &End,
    low: &[KeptRow],
    greatest: &End,
    high: &[KeptRow],
    out: &mut Vec<u8>,
) -> Result<(), NoMemory>
    ensures { OnOk result (out.new.items ≡ out.old.items ++ range_text least.now low.now greatest.now high.now) }
{
    append_side("least ", least, low, out)?;
    append_side("\ngreatest ", greatest, high, out)
}

/// Appends words, an end, and a line for each row that a repair keeps.
fn append_side(words: &str, end: &End, lines: &[KeptRow], out: &mut Vec<u8>) -> Result<(), NoMemory>
    ensures { OnOk result (out.new.items ≡ out.old.items ++ (words.now ++ end_text end.now ++ kept_lines lines.now)) }
{
    append_ending(words, end, out)?;
    append_kept_rows(lines, out)
}

/// Appends each group on a line of its own, and how many they are.
pub fn append_groups(lines: &[GroupEnds], out: &mut Vec<u8>) -> Result<(), NoMemory>
    ensures { OnOk result (out.new.items ≡ out.old.items ++ groups_text lines.now) }
{
    for line in lines {
        append_group(line, out)?;
    }
    append_counted(lines.len(), " groups", out)
}

/// Appends the line of a group with its line feed.
fn append_group(line: &GroupEnds, out: &mut Vec<u8>) -> Result<(), NoMemory>
    ensures { OnOk result (out.new.items ≡ out.old.items ++ (group_text line.now ++ codes "\n")) }
{
    append_words("group ", out)?;
    literal_text(&line.value, out)?;
    append_ending(" least ", &line.least, out)?;
    append_ending(" greatest ", &line.greatest, out)?;
    append_words("\n", out)
}

/// Appends words and an end.
fn append_ending(words: &str, end: &End, out: &mut Vec<u8>) -> Result<(), NoMemory>
    ensures { OnOk result (out.new.items ≡ out.old.items ++ (words.now ++ end_text end.now)) }
{
    append_words(words, out)?;
    append_end(end, out)
}

/// Appends an end: `none`, a number, or a value as a literal.
fn append_end(end: &End, out: &mut Vec<u8>) -> Result<(), NoMemory>
    ensures { OnOk result (out.new.items ≡ out.old.items ++ end_text end.now) }
{
    match end {
        End::Empty => append_words("none", out),
        End::Number(number) => append_signed(*number, out),
        End::Held(value) => literal_text(value, out),
    }
}
