//! Appends the words of a query's text.

ghost use Rattle.std.specs.Prelude.{◌≡◌, ◌++◌, ◌==◌, if◌then◌else◌, [], OnOk};
ghost use Rattle.std.specs.Fmt.{decimal};
ghost use Rattle.sql_text.specs.Texts.{alias_text, and_between, is_there, kind_word, literal_text as literal_sql, one_text, op_text, quoted, step_name, variable_text};

use crate::{Alias, StepKind};
use cqa_model::Op;
use cqa_value::{NoMemory, Value, literal_text};
use itoa::Buffer;

/// Appends words.
pub(crate) fn append(words: &str, out: &mut Vec<u8>) -> Result<(), NoMemory>
    ensures { OnOk result (out.new.items ≡ out.old.items ++ words.now) }
{
    out.extend_from_slice(words.as_bytes())?;
    Ok(())
}

/// Appends a number in decimal.
pub(crate) fn append_number(number: usize, out: &mut Vec<u8>) -> Result<(), NoMemory>
    ensures { OnOk result (out.new.items ≡ out.old.items ++ decimal number) }
{
    let mut buffer = Buffer::new();
    append(buffer.format(number), out)
}

/// Appends a name between double quotes.
pub(crate) fn append_quoted(name: &[u8], out: &mut Vec<u8>) -> Result<(), NoMemory>
    ensures { OnOk result (out.new.items ≡ out.old.items ++ quoted name.now) }
{
    out.push(b'"')?;
    out.extend_from_slice(name)?;
    out.push(b'"')?;
    Ok(())
}

/// Appends the column for a variable.
pub(crate) fn append_variable(variable: u32, out: &mut Vec<u8>) -> Result<(), NoMemory>
    ensures { OnOk result (out.new.items ≡ out.old.items ++ variable_text variable) }
{
    append("v", out)?;
    append_number(variable as usize, out)
}

fn word_of(kind: StepKind) -> &'static str
    ensures { result.now ≡ kind_word kind }
{
    match kind {
        StepKind::Asked => "asked ",
        StepKind::Rows => "rows ",
        StepKind::Blocks => "blocks ",
        StepKind::Holds => "holds ",
    }
}

/// Whether a list of this length has something.
pub(crate) fn is_there(count: usize) -> bool
    ensures { result ≡ is_there count }
{
    count != 0
}

/// What stands between two texts, if both are there.
pub(crate) fn and_between(first: bool, second: bool) -> &'static str
    ensures { result.now ≡ and_between first second }
{
    if first && second { " AND " } else { "" }
}

/// The last column of a step that has so many others.
pub(crate) fn one_text(kind: StepKind, count: usize) -> &'static str
    ensures { result.now ≡ one_text kind count }
{
    if count == 0 {
        return "1 AS one";
    }
    match kind {
        StepKind::Holds => ", 1 AS one",
        _ => "",
    }
}

/// Appends a separator before each item but the first.
pub(crate) fn separate(before: usize, separator: &str, out: &mut Vec<u8>) -> Result<(), NoMemory>
    ensures { OnOk result (out.new.items ≡ out.old.items ++ (if before == 0 then [] else separator.now)) }
{
    if before > 0 {
        append(separator, out)?;
    }
    Ok(())
}

/// Appends the name of a step.
pub(crate) fn append_step_name(
    kind: StepKind,
    level: usize,
    out: &mut Vec<u8>,
) -> Result<(), NoMemory>
    ensures { OnOk result (out.new.items ≡ out.old.items ++ step_name kind level) }
{
    out.push(b'"')?;
    append(word_of(kind), out)?;
    append_number(level, out)?;
    out.push(b'"')?;
    Ok(())
}

/// Appends an alias.
pub(crate) fn append_alias(alias: Alias, out: &mut Vec<u8>) -> Result<(), NoMemory>
    ensures { OnOk result (out.new.items ≡ out.old.items ++ alias_text alias) }
{
    match alias {
        Alias::Member => append("y", out),
        Alias::Context => append("s", out),
        Alias::Held(number) => {
            append("h", out)?;
            append_number(number, out)
        }
    }
}

fn op_word(op: Op) -> &'static str
    ensures { result.now ≡ op_text op }
{
    match op {
        Op::Eq => " = ",
        Op::Ne => " <> ",
        Op::Lt => " < ",
        Op::Le => " <= ",
        Op::Gt => " > ",
        Op::Ge => " >= ",
    }
}

/// Appends an operator and a literal.
pub(crate) fn append_test(op: Op, value: &Value, out: &mut Vec<u8>) -> Result<(), NoMemory>
    ensures { OnOk result (out.new.items ≡ out.old.items ++ (op_text op ++ literal_sql value.now)) }
{
    append(op_word(op), out)?;
    append_literal(value, out)
}

/// Appends a literal.
fn append_literal(value: &Value, out: &mut Vec<u8>) -> Result<(), NoMemory>
    ensures { OnOk result (out.new.items ≡ out.old.items ++ literal_sql value.now) }
{
    match value {
        Value::Int(i64::MIN) => append("(-9223372036854775807 - 1)", out),
        _ => literal_text(value, out),
    }
}
