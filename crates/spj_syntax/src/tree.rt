//! Statements as they are written: names aren't looked up yet.

ghost use Rattle.std.specs.Prelude.{◌≤◌, length};
ghost use Rattle.spj_syntax.specs.Limits.{most_items};
ghost use Rattle.spj_syntax.specs.Names.{AreNames};

use cqa_model::{Column, Op};
use cqa_value::{Items, Name, Row, Value};

/// A schema as it is written: a name, one column or more, a key of one column or more, each by its name, and whether the
/// table is strict.
pub struct RawSchema {
    pub name: Name,
    pub columns: Items<Column>,
    pub key: Items<Name>,
    pub strict: bool,
    pub ghost some_column: { 1 ≤ length columns },
    pub ghost some_key: { 1 ≤ length key },
    pub ghost named: { AreNames name columns key },
}

impl Drop for RawSchema {
    fn drop(self) {
        let RawSchema {
            name: _,
            columns: _,
            key: _,
            strict: _,
        } = self;
    }
}

/// What an `alter` changes of a table: whether it is strict, or its key, of one column or more, each by its name.
#[derive(Drop)]
pub enum Change {
    SetStrict,
    DropStrict,
    SetKey(Items<Name>),
}

/// A test of a row of one table: a column of it and a literal, compared.
pub struct RawTest {
    pub col: Name,
    pub op: Op,
    pub value: Value,
}

impl Drop for RawTest {
    fn drop(self) {
        let RawTest {
            col: _,
            op: _,
            value: _,
        } = self;
    }
}

/// A column as it is written, with its table or without.
pub struct RawCol {
    pub table: Option<Name>,
    pub name: Name,
}

impl Drop for RawCol {
    fn drop(self) {
        let RawCol { table: _, name: _ } = self;
    }
}

/// A condition as it is written: two columns that are equal, or a comparison with a literal.
pub enum RawCond {
    Join { left: RawCol, right: RawCol },
    Test { col: RawCol, op: Op, value: Value },
}

impl Drop for RawCond {
    fn drop(self) {
        match self {
            RawCond::Join { left: _, right: _ } => {}
            RawCond::Test {
                col: _,
                op: _,
                value: _,
            } => {}
        }
    }
}

/// A query as it is written, of one table or more. An `exists` has no columns.
pub struct Select {
    pub columns: Items<RawCol>,
    pub tables: Items<Name>,
    pub conds: Items<RawCond>,
    pub ghost some_table: { 1 ≤ length tables },
    pub ghost few: { length conds ≤ most_items },
}

impl Drop for Select {
    fn drop(self) {
        let Select {
            columns: _,
            tables: _,
            conds: _,
        } = self;
    }
}

/// Two queries or more, as they are written: the parts of a union.
#[derive(Drop)]
pub struct Selects {
    pub parts: Items<Select>,
    pub ghost two: { 2 ≤ length parts },
}

/// What is asked of a query: its certain rows, its possible rows, those of them that aren't certain, its class, its plan, its
/// certain rows as one query in SQL, why a row isn't certain, which rows are against it, or a certificate that it is certain.
#[derive(Drop)]
pub enum Verb {
    Ask,
    Possible,
    Disputed,
    Classify,
    Plan,
    Sql,
    Explain { row: Row },
    Against { row: Row },
    Prove { row: Row },
}

/// What a `range` asks of the rows of a table: their number, or the sum, the least or the greatest value of a column.
#[derive(Drop)]
pub enum RawGoal {
    Count,
    Sum(Name),
    Min(Name),
    Max(Name),
}

/// What a `range` asks of the witnesses of a query over several tables: their number, or the sum, the least or the greatest
/// value of a column.
#[derive(Drop)]
pub enum RawJoinGoal {
    Count,
    Sum(RawCol),
    Min(RawCol),
    Max(RawCol),
}

/// A `range` over two tables or more, as it is written: what is asked, the tables, the conditions, and the column by whose
/// values witnesses are grouped.
pub struct RawRange {
    pub goal: RawJoinGoal,
    pub tables: Items<Name>,
    pub conds: Items<RawCond>,
    pub group: Option<RawCol>,
    pub ghost some_other: { 2 ≤ length tables },
    pub ghost few: { length conds ≤ most_items },
}

impl Drop for RawRange {
    fn drop(self) {
        let RawRange {
            goal: _,
            tables: _,
            conds: _,
            group: _,
        } = self;
    }
}

/// A block of a table as it is written: one row or more, by their values.
#[derive(Drop)]
pub struct RawBlock {
    pub table: Name,
    pub rows: Items<Row>,
}

/// A statement of the script language.
#[derive(Drop)]
pub enum Statement {
    Create {
        schema: RawSchema,
    },
    Alter {
        table: Name,
        change: Change,
    },
    Insert {
        table: Name,
        rows: Items<Row>,
    },
    Delete {
        table: Name,
        tests: Items<RawTest>,
    },
    Prefer {
        table: Name,
        tests: Items<RawTest>,
    },
    Asking {
        verb: Verb,
        select: Select,
    },
    AskUnion(Selects),
    PossibleUnion(Selects),
    ClassifyUnion(Selects),
    SqlUnion(Selects),
    ExplainUnion {
        row: Row,
        selects: Selects,
    },
    SetConflicts(u32),
    Copy {
        table: Name,
    },
    Range {
        goal: RawGoal,
        table: Name,
        tests: Items<RawTest>,
        group: Option<Name>,
    },
    RangeJoin {
        range: RawRange,
    },
    Dump,
    ShowTables,
    ShowLog,
    ShowConflicts,
}
