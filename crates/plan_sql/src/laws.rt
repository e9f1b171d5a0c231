//! The laws of the query of a plan, over the definitions alone. Each is what its function ensures.

ghost use Rattle.plan_sql.specs.Laws.{ChoicesEndOnce, CountIsEach, SqlIsExact, SqlIsNamed, SqlIsSpread, SqlIsWide, SqlShowsOnce};

/// What the query of a plan means is exactly the certain answer, over each database that the query fits, of any size.
pub fn sql_is_exact()
    ensures { SqlIsExact }
{}

/// The query of a plan means rows of the answer's length alone.
pub fn sql_is_wide()
    ensures { SqlIsWide }
{}

/// The names of the query of a plan say what its places mean.
pub fn sql_is_named()
    ensures { SqlIsNamed }
{}

/// The query of a plan shows each row once, over each database that the query fits.
pub fn sql_shows_once()
    ensures { SqlShowsOnce }
{}

/// Each step of the query of a plan has, over rows that are spread over machines so that no block is split, the rows that it
/// has on the machines together.
pub fn sql_is_spread()
    ensures { SqlIsSpread }
{}

/// Where the names of a query say what its places mean, a choice of a group shows a row once: so it can be counted.
pub fn choices_end_once()
    ensures { ChoicesEndOnce }
{}

/// As many choices of a group show a row as it has just where each of them shows it.
pub fn count_is_each()
    ensures { CountIsEach }
{}
