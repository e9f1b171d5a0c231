//! A query that fits a database, as one value: what every method works on that answers a query. What it says of an atom it
//! says of any number: an atom that the query doesn't have has no columns, no key and the first table. Only a look-up of rows by
//! key values needs an atom that is there.

ghost use Rattle.std.specs.Prelude.{◌≡◌};
ghost use Rattle.cqa_model.specs.Database.{IsDatabase};
ghost use Rattle.cqa_model.specs.Query.{FitsDatabase};
ghost use Rattle.cqa_model.specs.Naming.{AreVariables};
ghost use Rattle.table_blocks.specs.Once.{database_once, fits_once};

use crate::database::Database;
use cqa_model::{Query, Variables, variables};
use row_order::Probe;
use row_pieces::Rows;

/// A database and a query that fits it, with the query's variables. The database doesn't change as long as it is borrowed, so
/// that the query goes on to fit it.
#[derive(Drop)]
pub struct Bound<'a> {
    pub db: &'a Database,
    pub query: &'a Query,
    pub variables: Variables,
    pub ghost database: { IsDatabase db.now } by { database_once db.now },
    pub ghost fits: { FitsDatabase query.now db.now } by { fits_once query.now db.now },
    pub ghost named: { ∥ AreVariables query.now variables ∥₁ },
}

impl<'a> Bound<'a> {
    ghost use Rattle.std.specs.Prelude.{◌<◌, ◌≤◌, ◌+◌, length};
    ghost use Rattle.std.specs.List.Sorted.{IsStrictlySortedBy};
    ghost use Rattle.cqa_model.specs.declared.limits.TheConstants.{MOST_ROWS};
    ghost use Rattle.cqa_model.specs.Database.{block_cmp, stored};
    ghost use Rattle.cqa_model.specs.Query.{atom_at, atom_key, rows_of};
    ghost use Rattle.row_order.specs.Spans.{IsSpan};

    /// A query over a database that it fits. It takes no memory.
    pub fn new(db: &'a Database, query: &'a Query) -> Bound<'a>
        requires { FitsDatabase query.now db.now }
        ensures db { result.db.now ≡ db.now }
        ensures query { result.query.now ≡ query.now }
    {
        let _tables = db.count();
        Bound {
            db,
            query,
            variables: variables(query),
        }
    }

    /// The place of an atom's table.
    pub fn table_of(&self, atom: u32) -> u32
        ensures table { result ≡ (atom_at self.now.query.now atom).table }
        ensures there { result < length self.now.db.now }
    {
        match self.query.atoms.as_slice().get(atom as usize) {
            Some(found) => found.table,
            None => 0,
        }
    }

    /// The number of an atom's columns.
    pub fn width_of(&self, atom: u32) -> u32
        ensures { result ≡ (atom_at self.now.query.now atom).width }
    {
        match self.query.atoms.as_slice().get(atom as usize) {
            Some(found) => found.width,
            None => 0,
        }
    }

    /// The places of an atom's key columns.
    pub fn key_of(&self, atom: u32) -> &'a [u32]
        ensures { result.now ≡ atom_key self.now.query.now atom }
    {
        match self.query.atoms.as_slice().get(atom as usize) {
            Some(found) => found.key.as_slice(),
            None => &[],
        }
    }

    /// The rows of an atom's table, in block order.
    pub fn rows_of(&self, atom: u32) -> Rows<'a>
        ensures rows { result ≡ rows_of self.now.query.now (stored self.now.db.now) atom }
        ensures in_order { atom < length self.now.query.now.atoms → IsStrictlySortedBy (block_cmp (atom_key self.now.query.now atom)) result }
        ensures few { length result ≤ MOST_ROWS }
    {
        self.db.rows(self.table_of(atom))
    }

    /// The rows of an atom's table whose first key values are a probe's, and the place of the first of them.
    pub fn rows_with(&self, atom: u32, probe: &Probe<'_>) -> (u32, Rows<'a>)
        requires there { atom < length self.now.query.now.atoms }
        requires few { length probe.now ≤ length (atom_key self.now.query.now atom) }
        ensures span { IsSpan (atom_key self.now.query.now atom) (rows_of self.now.query.now (stored self.now.db.now) atom) probe.now result.0 result.1 }
        ensures in_order { IsStrictlySortedBy (block_cmp (atom_key self.now.query.now atom)) result.1 }
        ensures within { result.0 + length result.1 ≤ MOST_ROWS }
    {
        let table = self.table_of(atom);
        // Asked for its order alone.
        let _rows = self.db.rows(table);
        self.db.rows_with(table, probe)
    }
}
