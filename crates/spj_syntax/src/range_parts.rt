//! The parts of a `range`, as they are read.

ghost use Rattle.std.specs.Prelude.{◌<◌, ◌≤◌, length};
ghost use Rattle.spj_syntax.specs.Limits.{most_items};

use crate::{RawCol, RawCond, RawGoal, RawJoinGoal, RawTest};
use cqa_value::{Items, Name};

/// What is asked of the values of a column.
#[derive(Clone, Copy)]
pub enum Asked {
    Sum,
    Min,
    Max,
}

/// What stands behind the first of several tables: the other ones, the conditions, and the column of the groups.
#[derive(Drop)]
pub struct Several {
    pub others: Items<Name>,
    pub conds: Items<RawCond>,
    pub group: Option<RawCol>,
    pub ghost some_other: { 0 < length others },
    pub ghost few: { length conds ≤ most_items },
}

/// What stands behind the only table: the tests, and the column of the groups.
#[derive(Drop)]
pub struct Tested {
    pub tests: Items<RawTest>,
    pub group: Option<Name>,
    pub ghost few: { length tests ≤ most_items },
}

/// What stands behind the first table.
#[derive(Drop)]
pub enum Rest {
    Several(Several),
    Tested(Tested),
}

/// A `range` without its first word, as it is read: with no dot in its goal, or with a column that is written with its table,
/// which takes several tables.
#[derive(Drop)]
pub enum Parts {
    Plain {
        goal: RawGoal,
        first: Name,
        tail: Rest,
    },
    Dotted {
        goal: RawJoinGoal,
        first: Name,
        behind: Several,
    },
}
