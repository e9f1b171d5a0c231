//! Why a statement is refused.

use cqa_value::{Name, Row};

/// Why a statement was refused. Offsets count the bytes of the statement's text from 0; rows, columns, conditions and
/// records are numbered from 1.
pub enum Refusal {
    /// The byte at the offset begins no token, it is the quote that begins a text without an end, or it is the first
    /// byte after the longest UTF-8 prefix of a text's bytes that aren't UTF-8.
    BadByte { at: u32 },
    /// The tokens are no statement; the offset is that of the first that can't stand there, or the text's length.
    Syntax { at: u32 },
    /// The text has this many bytes, more than a statement may have.
    StatementTooLong { len: u32 },
    /// No table has the name, or the query doesn't name it.
    UnknownTable { name: Name },
    /// A table has the name already.
    TableExists { name: Name },
    /// No column has the name, written with its table where one is given.
    UnknownColumn { table: Option<Name>, name: Name },
    /// Columns of two or more of the query's tables have the name.
    AmbiguousColumn { name: Name },
    /// The query names the table twice.
    SelfJoin { name: Name },
    /// A value or column has another kind than its place asks for.
    TypeMismatch { place: Place },
    /// The row has more or fewer values than columns are asked for.
    WrongArity { row: u32 },
    /// The table would have two columns of the name.
    DuplicateColumn { name: Name },
    /// The key's name is no column, or stands in the key twice.
    BadKey { name: Name },
    /// The number at the offset is out of range.
    OutOfRange { at: u32 },
    /// The text at the offset has more than 1,024 bytes.
    TextTooLong { at: u32 },
    /// The input ends within a statement.
    Unfinished,
    /// More than the greatest number of something.
    Limit { what: LimitKind },
    /// The row has more witnesses than the solver takes.
    WitnessLimit { row: Row },
    /// The search for the row used up its conflicts.
    Spent { row: Row, conflicts: u32 },
    /// The record isn't a row of the table.
    BadCsv { number: u32 },
    /// The table is strict, and the numbered row of the statement, `fresh`, shares its key with the different row `kept`
    /// that is stored or stands before it.
    KeyTaken { row: u32, kept: Row, fresh: Row },
    /// The table would be strict, and these different rows share the key that it would have.
    KeyBroken { first: Row, second: Row },
    /// The row is certain by a plan, and its certificate, or a statement of it, would be longer than may be.
    CertificateLimit,
    /// Of the tables of a `range` over several, this is the second that isn't strict: at most one may be so.
    NotStrict { name: Name },
}

impl Drop for Refusal {
    fn drop(self) {
        match self {
            Refusal::BadByte { at: _ } => {}
            Refusal::Syntax { at: _ } => {}
            Refusal::StatementTooLong { len: _ } => {}
            Refusal::UnknownTable { name: _ } => {}
            Refusal::TableExists { name: _ } => {}
            Refusal::UnknownColumn { table: _, name: _ } => {}
            Refusal::AmbiguousColumn { name: _ } => {}
            Refusal::SelfJoin { name: _ } => {}
            Refusal::TypeMismatch { place: _ } => {}
            Refusal::WrongArity { row: _ } => {}
            Refusal::DuplicateColumn { name: _ } => {}
            Refusal::BadKey { name: _ } => {}
            Refusal::OutOfRange { at: _ } => {}
            Refusal::TextTooLong { at: _ } => {}
            Refusal::Unfinished => {}
            Refusal::Limit { what: _ } => {}
            Refusal::WitnessLimit { row: _ } => {}
            Refusal::Spent {
                row: _,
                conflicts: _,
            } => {}
            Refusal::BadCsv { number: _ } => {}
            Refusal::KeyTaken {
                row: _,
                kept: _,
                fresh: _,
            } => {}
            Refusal::KeyBroken {
                first: _,
                second: _,
            } => {}
            Refusal::CertificateLimit => {}
            Refusal::NotStrict { name: _ } => {}
        }
    }
}

/// Where two kinds differ: at a value of a row, or in a condition.
#[derive(Clone, Copy, Debug, PartialEq, Eq)]
pub enum Place {
    Cell { row: u32, column: u32 },
    Condition(u32),
}

/// What is limited in number.
#[derive(Clone, Copy, Debug, PartialEq, Eq)]
pub enum LimitKind {
    Name,
    Tables,
    Columns,
    Atoms,
    Answer,
    Rows,
    Selects,
}
