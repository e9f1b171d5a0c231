//! Appends the line of a refusal: its number, its name, and what it is about.

ghost use Rattle.std.specs.Prelude.{◌≡◌, ◌++◌, OnOk, codes};
ghost use Rattle.std.specs.Fmt.{decimal};
ghost use Rattle.cqa_value.specs.Literals.{row_bytes};
ghost use Rattle.reply_text.specs.Texts.{limit_of, limit_text, limit_word, place_text, refusal_parts, refusal_text, written_column};

use crate::append::{
    append_name, append_named, append_number, append_numbered, append_row, append_u32, append_words,
};
use cqa_model::{
    LONGEST_NAME, MOST_ANSWER_COLUMNS, MOST_ATOMS, MOST_COLUMNS, MOST_ROWS, MOST_SELECTS,
    MOST_TABLES,
};
use cqa_value::{Name, NoMemory, Row, row_text};
use refusals::{LimitKind, Place, Refusal};

/// Appends the line of a refusal without its line feed.
pub fn append_refusal(refusal: &Refusal, out: &mut Vec<u8>) -> Result<(), NoMemory>
    ensures { OnOk result (out.new.items ≡ out.old.items ++ refusal_text refusal.now) }
{
    append_words(refusal_words(refusal), out)?;
    append_subject(refusal, out)
}

/// The words that begin the line of a refusal: its number and its name.
fn refusal_words(refusal: &Refusal) -> &'static str
    ensures { result.now ≡ (refusal_parts refusal.now).0 }
{
    match refusal {
        Refusal::BadByte { .. } => "error 1 BadByte at ",
        Refusal::Syntax { .. } => "error 2 Syntax at ",
        Refusal::StatementTooLong { .. } => "error 3 StatementTooLong ",
        Refusal::UnknownTable { .. } => "error 4 UnknownTable ",
        Refusal::TableExists { .. } => "error 5 TableExists ",
        Refusal::UnknownColumn { .. } => "error 6 UnknownColumn ",
        Refusal::AmbiguousColumn { .. } => "error 7 AmbiguousColumn ",
        Refusal::SelfJoin { .. } => "error 8 SelfJoin ",
        Refusal::TypeMismatch { .. } => "error 9 TypeMismatch ",
        Refusal::WrongArity { .. } => "error 10 WrongArity row ",
        Refusal::DuplicateColumn { .. } => "error 11 DuplicateColumn ",
        Refusal::BadKey { .. } => "error 12 BadKey ",
        Refusal::OutOfRange { .. } => "error 13 OutOfRange at ",
        Refusal::TextTooLong { .. } => "error 14 TextTooLong at ",
        Refusal::Unfinished => "error 15 Unfinished",
        Refusal::Limit { .. } => "error 16 Limit ",
        Refusal::WitnessLimit { .. } => "error 17 WitnessLimit ",
        Refusal::Spent { .. } => "error 18 Spent ",
        Refusal::BadCsv { .. } => "error 19 BadCsv record ",
        Refusal::KeyTaken { .. } => "error 20 KeyTaken row ",
        Refusal::KeyBroken { .. } => "error 21 KeyBroken ",
        Refusal::CertificateLimit => "error 22 CertificateLimit",
        Refusal::NotStrict { .. } => "error 23 NotStrict ",
    }
}

/// Appends what a refusal is about.
fn append_subject(refusal: &Refusal, out: &mut Vec<u8>) -> Result<(), NoMemory>
    ensures { OnOk result (out.new.items ≡ out.old.items ++ (refusal_parts refusal.now).1) }
{
    match refusal {
        Refusal::BadByte { at: number }
        | Refusal::Syntax { at: number }
        | Refusal::StatementTooLong { len: number }
        | Refusal::WrongArity { row: number }
        | Refusal::OutOfRange { at: number }
        | Refusal::TextTooLong { at: number }
        | Refusal::BadCsv { number } => append_u32(*number, out),
        Refusal::UnknownTable { name }
        | Refusal::TableExists { name }
        | Refusal::AmbiguousColumn { name }
        | Refusal::SelfJoin { name }
        | Refusal::DuplicateColumn { name }
        | Refusal::BadKey { name }
        | Refusal::NotStrict { name } => append_name(name, out),
        Refusal::UnknownColumn { table, name } => append_column(table, name, out),
        Refusal::TypeMismatch { place } => append_place(place, out),
        Refusal::Unfinished | Refusal::CertificateLimit => Ok(()),
        Refusal::Limit { what } => append_limit(what, out),
        Refusal::WitnessLimit { row } => row_text(row, out),
        Refusal::Spent { row, conflicts } => append_spent(row, *conflicts, out),
        Refusal::KeyTaken { row, kept, fresh } => append_taken(*row, kept, fresh, out),
        Refusal::KeyBroken { first, second } => append_rows(first, second, out),
    }
}

/// Appends a column as it was written.
fn append_column(table: &Option<Name>, name: &Name, out: &mut Vec<u8>) -> Result<(), NoMemory>
    ensures { OnOk result (out.new.items ≡ out.old.items ++ written_column table.now name.now) }
{
    match table {
        None => append_name(name, out),
        Some(table) => {
            append_name(table, out)?;
            append_named(".", name, out)
        }
    }
}

/// Appends a place.
fn append_place(place: &Place, out: &mut Vec<u8>) -> Result<(), NoMemory>
    ensures { OnOk result (out.new.items ≡ out.old.items ++ place_text place.now) }
{
    match place {
        Place::Cell { row, column } => {
            append_numbered("row ", *row, out)?;
            append_numbered(" column ", *column, out)
        }
        Place::Condition(number) => append_numbered("condition ", *number, out),
    }
}

/// Appends what is limited, and its greatest number.
fn append_limit(what: &LimitKind, out: &mut Vec<u8>) -> Result<(), NoMemory>
    ensures { OnOk result (out.new.items ≡ out.old.items ++ limit_text what.now) }
{
    append_words(limit_name(*what), out)?;
    append_number(most(*what), out)
}

/// What is limited, with a space behind it.
fn limit_name(what: LimitKind) -> &'static str
    ensures { result.now ≡ limit_word what }
{
    match what {
        LimitKind::Name => "name ",
        LimitKind::Tables => "tables ",
        LimitKind::Columns => "columns ",
        LimitKind::Atoms => "atoms ",
        LimitKind::Answer => "answer ",
        LimitKind::Rows => "rows ",
        LimitKind::Selects => "selects ",
    }
}

/// The greatest number of what is limited.
fn most(what: LimitKind) -> usize
    ensures { result ≡ limit_of what }
{
    match what {
        LimitKind::Name => LONGEST_NAME,
        LimitKind::Tables => MOST_TABLES as usize,
        LimitKind::Columns => MOST_COLUMNS,
        LimitKind::Atoms => MOST_ATOMS as usize,
        LimitKind::Answer => MOST_ANSWER_COLUMNS,
        LimitKind::Rows => MOST_ROWS,
        LimitKind::Selects => MOST_SELECTS,
    }
}

/// Appends two rows.
fn append_rows(first: &Row, second: &Row, out: &mut Vec<u8>) -> Result<(), NoMemory>
    ensures { OnOk result (out.new.items ≡ out.old.items ++ (row_bytes first.now ++ codes " " ++ row_bytes second.now)) }
{
    row_text(first, out)?;
    append_row(" ", second, out)
}

/// Appends what a taken key is about: a row's number, the row that is kept and the row of that number.
fn append_taken(number: u32, kept: &Row, fresh: &Row, out: &mut Vec<u8>) -> Result<(), NoMemory>
    ensures { OnOk result (out.new.items ≡ out.old.items ++ (decimal number ++ codes " " ++ row_bytes kept.now ++ codes " " ++ row_bytes fresh.now)) }
{
    append_u32(number, out)?;
    append_words(" ", out)?;
    append_rows(kept, fresh, out)
}

/// Appends a row and the conflicts that its search used up.
fn append_spent(row: &Row, conflicts: u32, out: &mut Vec<u8>) -> Result<(), NoMemory>
    ensures { OnOk result (out.new.items ≡ out.old.items ++ (row_bytes row.now ++ codes " conflicts " ++ decimal conflicts)) }
{
    row_text(row, out)?;
    append_numbered(" conflicts ", conflicts, out)
}
