//! The text of replies.

ghost use Rattle.std.specs.Prelude.{◌≡◌, ◌++◌, IfOk, OnOk, Some};
ghost use Rattle.std.specs.Fmt.{decimal, signed_decimal};
ghost use Rattle.std.specs.List.{flat_map};
ghost use Rattle.group_text.specs.Replies.{end_text, fault_number, fault_text, fault_word, reply_text, row_text};
ghost use Rattle.group_text.specs.Replies.GroupReply.{Between, Certain, Open, Refused};

use crate::Fault;
use choice_values::Best;
use cnf_form::{Cnf, Log, formula_text};
use cqa_value::NoMemory;
use itoa::Buffer;
use lrat_check::log_text;
use std::alloc::Global;

/// Appends a number in decimal.
fn append_number(number: u64, out: &mut Vec<u8>) -> Result<(), NoMemory>
    ensures { OnOk result (out.new.items ≡ out.old.items ++ decimal number) }
{
    let mut buffer = Buffer::new();
    out.extend_from_slice(buffer.format(number).as_bytes())?;
    Ok(())
}

/// Appends a number in decimal, with its sign where it is negative.
fn append_signed(number: i128, out: &mut Vec<u8>) -> Result<(), NoMemory>
    ensures { OnOk result (out.new.items ≡ out.old.items ++ signed_decimal number) }
{
    let mut buffer = Buffer::new();
    out.extend_from_slice(buffer.format(number).as_bytes())?;
    Ok(())
}

/// The name of a fault, without its number.
fn fault_word(fault: Fault) -> &'static str
    ensures { result.now ≡ fault_word fault }
{
    match fault {
        Fault::LongLine => "LongLine 16777216",
        Fault::BadLine => "BadLine",
        Fault::NoGroup => "NoGroup",
        Fault::Unfinished => "Unfinished",
        Fault::BadSize => "BadSize",
        Fault::ManyRows => "Limit rows 1000000",
        Fault::ManyLists => "Limit lists 1000000",
        Fault::BadRow => "BadRow",
        Fault::ManyNames => "Limit names 16000000",
        Fault::UnknownRow => "UnknownRow",
        Fault::BadWeight => "BadWeight",
        Fault::Spent(_) => "Spent conflicts ",
        Fault::Overworked(_) => "Spent work ",
        Fault::Unverified => "Unverified",
    }
}

/// Appends what a fault is called.
fn append_fault(fault: Fault, out: &mut Vec<u8>) -> Result<(), NoMemory>
    ensures { OnOk result (out.new.items ≡ out.old.items ++ fault_text fault) }
{
    out.extend_from_slice(fault_word(fault).as_bytes())?;
    match fault {
        Fault::Spent(budget) => append_number(budget as u64, out),
        Fault::Overworked(budget) => append_number(budget as u64, out),
        _ => Ok(()),
    }
}

/// Appends the refusal of a line by its number.
///
/// # Errors
///
/// `NoMemory` where memory is refused.
pub fn append_refused(line: u64, fault: Fault, out: &mut Vec<u8>) -> Result<(), NoMemory>
    ensures { OnOk result (out.new.items ≡ out.old.items ++ reply_text (Refused line fault)) }
{
    out.extend_from_slice(b"refused line ")?;
    append_number(line, out)?;
    out.push(b' ')?;
    append_fault(fault, out)?;
    out.push(b'\n')?;
    Ok(())
}

/// Appends the numbers of rows, from 1.
fn append_rows(rows: &[u32], out: &mut Vec<u8>) -> Result<(), NoMemory>
    ensures { OnOk result (out.new.items ≡ out.old.items ++ flat_map row_text rows.now) }
{
    for row in rows {
        out.push(b' ')?;
        append_number(*row as u64 + 1, out)?;
    }
    Ok(())
}

/// Appends a choice that holds no list whole.
///
/// # Errors
///
/// `NoMemory` where memory is refused.
pub fn append_open(rows: &[u32], out: &mut Vec<u8>) -> Result<(), NoMemory>
    ensures { OnOk result (out.new.items ≡ out.old.items ++ reply_text (Open rows.now)) }
{
    out.extend_from_slice(b"open")?;
    append_rows(rows, out)?;
    out.push(b'\n')?;
    Ok(())
}

/// Appends a word, a value, and the rows of a choice that has it.
fn append_end(word: &str, best: &Best, out: &mut Vec<u8>) -> Result<(), NoMemory>
    ensures { OnOk result (out.new.items ≡ out.old.items ++ end_text word.now best.now) }
{
    out.extend_from_slice(word.as_bytes())?;
    append_signed(best.value, out)?;
    append_rows(best.rows.as_slice(), out)
}

/// Appends a least and a greatest value, each with a choice that has it.
///
/// # Errors
///
/// `NoMemory` where memory is refused.
pub fn append_between(least: &Best, greatest: &Best, out: &mut Vec<u8>) -> Result<(), NoMemory>
    ensures { OnOk result (out.new.items ≡ out.old.items ++ reply_text (Between least.now greatest.now)) }
{
    append_end("least ", least, out)?;
    append_end(" greatest ", greatest, out)?;
    out.push(b'\n')?;
    Ok(())
}

/// The reply with a formula and a log that refutes it.
///
/// # Errors
///
/// `NoMemory` where memory is refused.
pub fn certain_text(alloc: Global, cnf: &Cnf, log: &Log) -> Result<Vec<u8>, NoMemory>
    ensures { IfOk result (λ text. text.items ≡ reply_text (Certain (Some (record { cnf = cnf.now; log = log.now })))) }
{
    let formula = formula_text(alloc, cnf)?;
    let steps = log_text(alloc, log)?;
    let mut text = Vec::from_slice(alloc, b"certain\n")?;
    text.extend_from_slice(formula.as_slice())?;
    text.extend_from_slice(b"lrat\n")?;
    text.extend_from_slice(steps.as_slice())?;
    text.extend_from_slice(b"c end\n")?;
    Ok(text)
}
