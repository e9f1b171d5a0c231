//! What ranges exist: of an aggregate of a table, by groups, and over the witnesses of a query; over the definitions alone. Each law
//! is what its function ensures, so the build proves it.

ghost use Rattle.existence_law.specs.RangeGroups.{GroupsExist};
ghost use Rattle.existence_law.specs.JoinRanges.{JoinGroupsExist, JoinRangesExist};
ghost use Rattle.existence_law.specs.Ranges.{RangesExist};

/// An aggregate of a table has a range.
pub fn ranges_exist()
    ensures { RangesExist }
{}

/// An aggregate of a table has a range for each group of rows.
pub fn groups_exist()
    ensures { GroupsExist }
{}

/// An aggregate over the witnesses of a query has a range.
pub fn join_ranges_exist()
    ensures { JoinRangesExist }
{}

/// An aggregate over the witnesses of a query has a range for each group of them.
pub fn join_groups_exist()
    ensures { JoinGroupsExist }
{}
