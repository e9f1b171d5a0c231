//! Appends what the lines of replies are made of.

ghost use Rattle.std.specs.Prelude.{◌≡◌, ◌++◌, OnOk};
ghost use Rattle.std.specs.Fmt.{decimal, signed_decimal};
ghost use Rattle.cqa_value.specs.Literals.{row_bytes};

use cqa_value::{Name, NoMemory, Row, row_text};
use itoa::Buffer;

/// Appends bytes.
pub fn append_bytes(bytes: &[u8], out: &mut Vec<u8>) -> Result<(), NoMemory>
    ensures { OnOk result (out.new.items ≡ out.old.items ++ bytes.now) }
{
    out.extend_from_slice(bytes)?;
    Ok(())
}

/// Appends words.
pub fn append_words(words: &str, out: &mut Vec<u8>) -> Result<(), NoMemory>
    ensures { OnOk result (out.new.items ≡ out.old.items ++ words.now) }
{
    append_bytes(words.as_bytes(), out)
}

/// Appends a number in decimal.
pub fn append_number(number: usize, out: &mut Vec<u8>) -> Result<(), NoMemory>
    ensures { OnOk result (out.new.items ≡ out.old.items ++ decimal number) }
{
    let mut buffer = Buffer::new();
    append_words(buffer.format(number), out)
}

/// Appends a number, and words.
pub fn append_counted(number: usize, words: &str, out: &mut Vec<u8>) -> Result<(), NoMemory>
    ensures { OnOk result (out.new.items ≡ out.old.items ++ (decimal number ++ words.now)) }
{
    append_number(number, out)?;
    append_words(words, out)
}

/// Appends a number in decimal, with its sign where it is negative.
pub fn append_signed(number: i128, out: &mut Vec<u8>) -> Result<(), NoMemory>
    ensures { OnOk result (out.new.items ≡ out.old.items ++ signed_decimal number) }
{
    let mut buffer = Buffer::new();
    append_words(buffer.format(number), out)
}

/// Appends a number of 32 bits in decimal.
pub fn append_u32(number: u32, out: &mut Vec<u8>) -> Result<(), NoMemory>
    ensures { OnOk result (out.new.items ≡ out.old.items ++ decimal number) }
{
    append_number(number as usize, out)
}

/// Appends words and a number.
pub fn append_numbered(words: &str, number: u32, out: &mut Vec<u8>) -> Result<(), NoMemory>
    ensures { OnOk result (out.new.items ≡ out.old.items ++ (words.now ++ decimal number)) }
{
    append_words(words, out)?;
    append_u32(number, out)
}

/// Appends a name.
pub fn append_name(name: &Name, out: &mut Vec<u8>) -> Result<(), NoMemory>
    ensures { OnOk result (out.new.items ≡ out.old.items ++ name.now) }
{
    append_words(name.as_str(), out)
}

/// Appends words and a name.
pub fn append_named(words: &str, name: &Name, out: &mut Vec<u8>) -> Result<(), NoMemory>
    ensures { OnOk result (out.new.items ≡ out.old.items ++ (words.now ++ name.now)) }
{
    append_words(words, out)?;
    append_name(name, out)
}

/// Appends words and a row.
pub fn append_row(words: &str, row: &Row, out: &mut Vec<u8>) -> Result<(), NoMemory>
    ensures { OnOk result (out.new.items ≡ out.old.items ++ (words.now ++ row_bytes row.now)) }
{
    append_words(words, out)?;
    row_text(row, out)
}
