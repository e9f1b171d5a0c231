//! The parts of a union over a database that they fit, as one value.

ghost use Rattle.std.specs.Prelude.{◌≡◌};
ghost use Rattle.cqa_model.specs.Database.{IsDatabase};
ghost use Rattle.cqa_model.specs.Unions.{AreParts};
ghost use Rattle.table_blocks.specs.Once.{database_once};
ghost use Rattle.part_search.specs.Once.{parts_once};

use cqa_model::Query;
use table_blocks::Database;

/// A database and one to `MOST_SELECTS` queries that fit it, with answers of one length. The database doesn't change as long as
/// it is borrowed, so that they go on to fit it.
#[derive(Drop)]
pub struct BoundParts<'a> {
    pub db: &'a Database,
    pub queries: &'a [Query],
    pub ghost database: { IsDatabase db.now } by { database_once db.now },
    pub ghost parts: { AreParts queries.now db.now } by { parts_once queries.now db.now },
}

impl<'a> BoundParts<'a> {
    /// Parts over a database that they fit. It takes no memory.
    pub fn new(db: &'a Database, queries: &'a [Query]) -> BoundParts<'a>
        requires { AreParts queries.now db.now }
        ensures db { result.db.now ≡ db.now }
        ensures queries { result.queries.now ≡ queries.now }
    {
        let _tables = db.count();
        BoundParts { db, queries }
    }
}
