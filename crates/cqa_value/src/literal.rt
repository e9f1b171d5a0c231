//! How values and rows are written, and which integer a text writes.

ghost use Rattle.std.specs.Prelude.{◌≡◌, ◌++◌, ℤ, IsTrue, Some, OnOk, OnErr, codes};
ghost use Rattle.std.specs.Fmt.{signed_decimal};
ghost use Rattle.std.specs.Io.{StartsWith};
ghost use Rattle.std.specs.List.{join_by};
ghost use Rattle.cqa_value.specs.Literals.{int_of, is_in_range, doubled, literal_bytes, row_bytes};

use crate::digits::{begins_with_minus, read_minus, read_plain};
use crate::{NoMemory, Row, Value};
use itoa::Buffer;

/// The integer that a text writes: an optional `-` and one or more digits. `None` where the text is
/// no such text, or the number is out of range.
pub fn read_int(bytes: &[u8]) -> Option<i64>
    ensures exact { result ≡ int_of bytes.now }
    ensures reads_written { (n : ℤ) → IsTrue (is_in_range n) → bytes.now ≡ signed_decimal n → result ≡ Some n }
{
    if begins_with_minus(bytes) {
        read_minus(bytes)
    } else {
        read_plain(bytes)
    }
}

/// Appends a literal: an integer in decimal, a text between quotes with each quote in it doubled.
///
/// # Errors
///
/// `NoMemory` where memory is refused; `out` stays as it was then.
pub fn literal_text(value: &Value, out: &mut Vec<u8>) -> Result<(), NoMemory>
    ensures ok { OnOk result (out.new.items ≡ out.old.items ++ literal_bytes value.now) }
    ensures err { OnErr result (out.new.items ≡ out.old.items) }
{
    let start = out.len();
    let done = append_literal(value, out);
    if done.is_err() {
        out.truncate(start);
    }
    done
}

/// Appends a row: its literals in parentheses, with a comma and a space between two.
///
/// # Errors
///
/// `NoMemory` where memory is refused; `out` stays as it was then.
pub fn row_text(row: &Row, out: &mut Vec<u8>) -> Result<(), NoMemory>
    ensures ok { OnOk result (out.new.items ≡ out.old.items ++ row_bytes row.now) }
    ensures err { OnErr result (out.new.items ≡ out.old.items) }
{
    let start = out.len();
    let done = append_row(row.as_slice(), out);
    if done.is_err() {
        out.truncate(start);
    }
    done
}

fn append_row(values: &[Value], out: &mut Vec<u8>) -> Result<(), NoMemory>
    ensures ok { OnOk result (out.new.items ≡ out.old.items ++ row_bytes values.now) }
    ensures err { OnErr result (StartsWith out.new.items out.old.items) }
{
    out.push(b'(')?;
    append_joined(values, out)?;
    out.push(b')')?;
    Ok(())
}

fn append_joined(values: &[Value], out: &mut Vec<u8>) -> Result<(), NoMemory>
    ensures ok { OnOk result (out.new.items ≡ out.old.items ++ join_by literal_bytes (codes ", ") values.now) }
    ensures err { OnErr result (StartsWith out.new.items out.old.items) }
{
    let Some((first, rest)) = values.split_first() else {
        return Ok(());
    };
    append_literal(first, out)?;
    for value in rest {
        out.extend_from_slice(b", ")?;
        append_literal(value, out)?;
    }
    Ok(())
}

fn append_literal(value: &Value, out: &mut Vec<u8>) -> Result<(), NoMemory>
    ensures ok { OnOk result (out.new.items ≡ out.old.items ++ literal_bytes value.now) }
    ensures err { OnErr result (StartsWith out.new.items out.old.items) }
{
    match value {
        Value::Int(number) => {
            let mut buffer = Buffer::new();
            out.extend_from_slice(buffer.format(*number).as_bytes())?;
        }
        Value::Text(name) => {
            out.push(b'\'')?;
            append_doubled(name.bytes(), out)?;
            out.push(b'\'')?;
        }
    }
    Ok(())
}

fn append_doubled(bytes: &[u8], out: &mut Vec<u8>) -> Result<(), NoMemory>
    ensures ok { OnOk result (out.new.items ≡ out.old.items ++ doubled bytes.now) }
    ensures err { OnErr result (StartsWith out.new.items out.old.items) }
{
    for &byte in bytes {
        if byte == b'\'' {
            out.push(byte)?;
        }
        out.push(byte)?;
    }
    Ok(())
}
