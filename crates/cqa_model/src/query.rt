//! Queries: atoms, conditions and answer columns, with their shape kept on the type.

ghost use Rattle.cqa_model.specs.Shape.{IsQuery, AreDistinct};

use cqa_value::{Items, NOTHING, Row, Value, compare};

/// A column of an atom: the atom's place in the query, and the column's place in its table.
#[derive(Clone, Copy, Debug, PartialEq, Eq)]
pub struct ColRef {
    pub atom: u32,
    pub col: u32,
}

/// How a value compares with a literal.
#[derive(Clone, Copy, Debug, PartialEq, Eq)]
pub enum Op {
    Eq,
    Ne,
    Lt,
    Le,
    Gt,
    Ge,
}

impl Op {
    ghost use Rattle.std.specs.Prelude.{◌↔◌, IsTrue, slice_index_or};
    ghost use Rattle.cqa_value.specs.Values.{nothing};
    ghost use Rattle.cqa_model.specs.Query.{OpHolds};

    /// Whether a value stands so to another.
    pub fn holds(self, left: &Value, right: &Value) -> bool
        ensures { IsTrue result ↔ OpHolds self left.now right.now }
    {
        match self {
            Op::Eq => left == right,
            Op::Ne => left != right,
            Op::Lt => compare(left, right).is_lt(),
            Op::Le => compare(left, right).is_le(),
            Op::Gt => compare(left, right).is_gt(),
            Op::Ge => compare(left, right).is_ge(),
        }
    }

    /// Whether a row's value in a column stands so to another; a row that is too narrow counts as 0 in the column.
    pub fn holds_in(self, row: &Row, col: u32, value: &Value) -> bool
        ensures { IsTrue result ↔ OpHolds self (slice_index_or row.now col nothing) value.now }
    {
        self.holds(row.at_or(col, &NOTHING), value)
    }
}

/// A condition: two columns have one value, or a column's value compares with a literal.
pub enum Cond {
    Join { left: ColRef, right: ColRef },
    Test { col: ColRef, op: Op, value: Value },
}

impl Drop for Cond {
    fn drop(self) {
        match self {
            Cond::Join { left: _, right: _ } => {}
            Cond::Test {
                col: _,
                op: _,
                value: _,
            } => {}
        }
    }
}

/// A table of a query: its place in the database, its number of columns, the places of its key, and whether it is strict.
pub struct Atom {
    pub table: u32,
    pub width: u32,
    pub key: Items<u32>,
    pub strict: bool,
}

impl Drop for Atom {
    fn drop(self) {
        let Atom {
            table: _,
            width: _,
            key: _,
            strict: _,
        } = self;
    }
}

/// A select-project-join query without self-joins.
///
/// It has 1 to `MOST_ATOMS` atoms of different tables, each with 1 to `MOST_COLUMNS` columns and a key of different
/// columns, at most `MOST_ANSWER_COLUMNS` answer columns, and every column that it speaks of is there.
pub struct Query {
    pub atoms: Items<Atom>,
    pub conds: Items<Cond>,
    pub answer: Items<ColRef>,
    pub ghost kept: { IsQuery atoms conds answer },
}

impl Drop for Query {
    fn drop(self) {
        let Query {
            atoms: _,
            conds: _,
            answer: _,
        } = self;
    }
}

/// An order of a query's atoms, each named by its place in the query and at most once.
#[derive(Drop)]
pub struct Plan {
    pub order: Items<u32>,
    pub ghost apart: { AreDistinct order },
}

/// A stored row: its table's place in the database, and its own in the table's block order.
#[derive(Clone, Copy, Debug, PartialEq, Eq)]
pub struct RowId {
    pub table: u32,
    pub place: u32,
}
