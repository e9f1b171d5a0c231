//! What a statement is answered by.

ghost use Rattle.std.specs.Prelude.{◌≡◌, IfOk};

use aggregate_range::End;
use cnf_form::{Cnf, Log};
use complexity_class::Class;
use cqa_model::Schema;
use cqa_value::{Items, Name, NoMemory, Row, Value};
use refusals::Refusal;
use std::alloc::Global;

/// What a statement is answered by.
pub enum Reply {
    /// The table of the name was made.
    Created(Name),
    /// The table of the name has another mark or key, or was to have those that it had.
    Altered(Name),
    /// So many rows are new.
    Inserted(u32),
    /// So many rows are gone.
    Deleted(u32),
    /// So many rows of a block are new.
    Copied(u32),
    /// The rows of an answer.
    Rows(Items<Row>),
    /// The class of a query, and the attacks between its atoms.
    Classified {
        class: Class,
        lines: Items<AttackLine>,
    },
    /// The class of each part of a union with its attacks, and the first table that isn't strict and stands in two parts.
    ClassifiedParts {
        parts: Items<PartClass>,
        shared: Option<Name>,
    },
    /// The tables of a query in the order of its plan.
    Steps(Items<Name>),
    /// The certain rows of a query as one query in SQL.
    Sql(Items<u8>),
    /// The certain rows of the parts of a union, each as one query in SQL: together they are those of the union.
    SqlParts(Items<Items<u8>>),
    /// The row is certain: a script of blocks that shows it without the database.
    Certificate(Items<u8>),
    /// The query has no plan.
    NoPlan,
    /// The part of a union that has this number, from 1, has no plan.
    NoPlanOf(u32),
    /// Two parts of a union, by their numbers from 1, share a table that isn't strict.
    Shares {
        first: u32,
        second: u32,
        table: Name,
    },
    /// The row is not certain: a repair of the query's tables that holds no witness of it, by its rows in the blocks
    /// that have a choice.
    Rejected(Items<KeptRow>),
    /// The row is certain: no rows that a repair keeps stand against it.
    Certain,
    /// The row is not certain: rows of blocks that have a choice, such that no repair that keeps them holds a witness of
    /// it, and none of which can be left out.
    Against(Items<KeptRow>),
    /// The row is certain by the block of a table that has these key values.
    ByBlock {
        table: Name,
        key: Row,
    },
    /// The row is certain by its formula, which a log refutes.
    ByRefutation(Proof),
    /// The least and the greatest value that an aggregate has in a repair of a table, each with the rows that a repair which
    /// has it keeps of the blocks that have a choice.
    Range {
        least: End,
        low: Items<KeptRow>,
        greatest: End,
        high: Items<KeptRow>,
    },
    /// The least and the greatest value that an aggregate has in a repair of a table, for each group of the table's rows.
    Groups(Items<GroupEnds>),
    /// A search may take so many conflicts from now on.
    Conflicts(u32),
    /// The tables in the order in which they were made.
    Tables(Items<TableLine>),
    /// How much of each table breaks its key, in the order in which the tables were made.
    Contested(Items<ConflictLine>),
    /// A script that makes all tables with their rows.
    Dumped(Items<u8>),
    /// The log that was kept last, with its formula.
    KeptLog(Proof),
    /// No log is kept.
    NoLog,
    /// The statement was refused and changed nothing.
    Refused(Refusal),
}

impl Drop for Reply {
    fn drop(self) {
        match self {
            Reply::Created(_) => {}
            Reply::Altered(_) => {}
            Reply::Inserted(_) => {}
            Reply::Deleted(_) => {}
            Reply::Copied(_) => {}
            Reply::Rows(_) => {}
            Reply::Classified { class: _, lines: _ } => {}
            Reply::ClassifiedParts {
                parts: _,
                shared: _,
            } => {}
            Reply::Steps(_) => {}
            Reply::Sql(_) => {}
            Reply::SqlParts(_) => {}
            Reply::Certificate(_) => {}
            Reply::NoPlan => {}
            Reply::NoPlanOf(_) => {}
            Reply::Shares {
                first: _,
                second: _,
                table: _,
            } => {}
            Reply::Rejected(_) => {}
            Reply::Certain => {}
            Reply::Against(_) => {}
            Reply::ByBlock { table: _, key: _ } => {}
            Reply::ByRefutation(_) => {}
            Reply::Range {
                least: _,
                low: _,
                greatest: _,
                high: _,
            } => {}
            Reply::Groups(_) => {}
            Reply::Conflicts(_) => {}
            Reply::Tables(_) => {}
            Reply::Contested(_) => {}
            Reply::Dumped(_) => {}
            Reply::KeptLog(_) => {}
            Reply::NoLog => {}
            Reply::Refused(_) => {}
        }
    }
}

/// A table's schema, with its numbers of rows and of blocks.
pub struct TableLine {
    pub schema: Schema,
    pub rows: u32,
    pub blocks: u32,
}

impl Drop for TableLine {
    fn drop(self) {
        let TableLine {
            schema: _,
            rows: _,
            blocks: _,
        } = self;
    }
}

/// A table's numbers of rows, of blocks, and of blocks of two rows or more.
pub struct ConflictLine {
    pub name: Name,
    pub rows: u32,
    pub blocks: u32,
    pub conflicts: u32,
}

impl Drop for ConflictLine {
    fn drop(self) {
        let ConflictLine {
            name: _,
            rows: _,
            blocks: _,
            conflicts: _,
        } = self;
    }
}

/// A row of a table that a repair keeps.
pub struct KeptRow {
    pub table: Name,
    pub row: Row,
}

impl Drop for KeptRow {
    fn drop(self) {
        let KeptRow { table: _, row: _ } = self;
    }
}

/// The least and the greatest value that an aggregate over the rows with a value in a column has in a repair.
#[derive(Drop)]
pub struct GroupEnds {
    pub value: Value,
    pub least: End,
    pub greatest: End,
}

/// An attack of one of a query's tables on another.
pub struct AttackLine {
    pub from: Name,
    pub to: Name,
    pub weak: bool,
}

impl Drop for AttackLine {
    fn drop(self) {
        let AttackLine {
            from: _,
            to: _,
            weak: _,
        } = self;
    }
}

/// The class of a part of a union, and the attacks between its tables.
#[derive(Drop)]
pub struct PartClass {
    pub class: Class,
    pub lines: Items<AttackLine>,
}

/// A formula with a log over its clauses.
#[derive(Drop)]
pub struct Proof {
    pub cnf: Cnf,
    pub log: Log,
}

impl Proof {
    /// A second proof that equals this one.
    ///
    /// # Errors
    ///
    /// `NoMemory` where memory is refused.
    pub fn copy(&self, alloc: Global) -> Result<Proof, NoMemory>
        ensures { IfOk result (λ proof. proof ≡ self.now) }
    {
        Ok(Proof {
            cnf: self.cnf.copy(alloc)?,
            log: self.log.copy(alloc)?,
        })
    }
}
