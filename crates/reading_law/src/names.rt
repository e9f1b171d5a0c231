//! What names stand for, over the definitions alone. Each law is what its function ensures, so the build proves it.

ghost use Rattle.reading_law.specs.Names.{SchemasAreResolved, KeysAreResolved, TestsAreResolved, GoalsAreResolved, GroupsAreResolved, QueriesAreResolved, UnionsAreResolved, RangesAreResolved};

/// A schema of which no check fails is one whose key is made of its columns.
pub fn schemas_are_resolved()
    ensures { SchemasAreResolved }
{}

/// Names of a key of which no check fails are columns of the table.
pub fn keys_are_resolved()
    ensures { KeysAreResolved }
{}

/// Tests of which no check fails are tests of the table's columns.
pub fn tests_are_resolved()
    ensures { TestsAreResolved }
{}

/// A goal of which no check fails is one of a column.
pub fn goals_are_resolved()
    ensures { GoalsAreResolved }
{}

/// The name of a group of which no check fails is a column.
pub fn groups_are_resolved()
    ensures { GroupsAreResolved }
{}

/// A query of which no check fails fits the database.
pub fn queries_are_resolved()
    ensures { QueriesAreResolved }
{}

/// A union of which no check fails has parts that fit the database.
pub fn unions_are_resolved()
    ensures { UnionsAreResolved }
{}

/// A range over several tables of which no check fails is one of a query that fits the database.
pub fn ranges_are_resolved()
    ensures { RangesAreResolved }
{}
