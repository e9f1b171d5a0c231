//! SQL queries of named steps, as far as the certain rows of a plan need them.

use cqa_model::Op;
use cqa_value::{Items, Value};

/// Where rows come from: the table of an atom, or the step at a place, before this one.
#[derive(Clone, Copy)]
pub enum Source {
    Table(u32),
    Step(usize),
}

/// The name of a source within a select.
#[derive(Clone, Copy)]
pub enum Alias {
    /// `y`: the rows of an atom's table.
    Member,
    /// `s`: contexts; or in the text alone, where no source has this name, the sizes of groups.
    Context,
    /// `h` and a number: what holds of the part that begins with the atom of this number.
    Held(usize),
}

/// A source with its alias.
#[derive(Clone, Copy)]
pub struct Listed {
    pub source: Source,
    pub alias: Alias,
}

/// A column of a source, by the place of the source in its select, and its own place.
#[derive(Clone, Copy)]
pub struct Cell {
    pub place: usize,
    pub column: usize,
}

/// A comparison: two cells have one value, or a cell's value compares with a literal.
#[derive(Drop)]
pub enum Cmp {
    Same { left: Cell, right: Cell },
    Test { cell: Cell, op: Op, value: Value },
}

/// A cell's value is in this column of some row of a step.
#[derive(Clone, Copy)]
pub struct Within {
    pub cell: Cell,
    pub step: usize,
    pub column: usize,
}

/// The rows of these cells, over all choices of one row from each source for which all of these comparisons hold and all of
/// these values are in their steps. One without cells is written with the constant 1.
#[derive(Drop)]
pub struct Select {
    pub cells: Items<Cell>,
    pub sources: Items<Listed>,
    pub all: Items<Cmp>,
    pub only: Items<Within>,
}

/// A source that is joined to what stands before it, by these comparisons; what has no row of it is kept (`LEFT JOIN`).
#[derive(Drop)]
pub struct Child {
    pub listed: Listed,
    pub on: Items<Cmp>,
}

/// The choices of a select, grouped by cells and joined with children one after the other. A choice shows a row in these cells
/// where it meets the comparisons `fit` and has a row of each child.
#[derive(Drop)]
pub struct Group {
    pub cells: Items<Cell>,
    pub sources: Items<Listed>,
    pub all: Items<Cmp>,
    pub only: Items<Within>,
    pub by: Items<Cell>,
    pub fit: Items<Cmp>,
    pub children: Items<Child>,
}

/// What a step has.
#[derive(Drop)]
pub enum Body {
    /// The rows of a select.
    Distinct(Select),
    /// The row that each choice of a group shows, where none shows another.
    Grouped(Group),
    /// The rows that each choice of a group shows, which may show others: a division.
    Shared(Group),
}

/// What a step is for.
#[derive(Clone, Copy)]
pub enum StepKind {
    /// The keys of an atom that rows before it ask for.
    Asked,
    /// The values of rows of an atom before, with which those of another one before are joined to look for contexts.
    Rows,
    /// The keys of few blocks that can hold, or contexts of a part, with its blocks, that the rows before it ask for.
    Blocks,
    /// The contexts in which a part holds.
    Holds,
}

/// A named step: its name is its kind and the number of its atom in the plan, from 1. Its columns are named by variables.
#[derive(Drop)]
pub struct Step {
    pub kind: StepKind,
    pub level: usize,
    pub columns: Items<u32>,
    pub body: Body,
}

/// Steps, one after the other, and a last select over them.
#[derive(Drop)]
pub struct Sql {
    pub steps: Items<Step>,
    pub last: Select,
}
