//! Lists of names of rows over a database, as one value: what is told of repairs by them.

ghost use Rattle.std.specs.Prelude.{◌≡◌, IfOk, length};
ghost use Rattle.cqa_model.specs.Database.{IsDatabase};
ghost use Rattle.join_access.specs.Listing.{names_of};
ghost use Rattle.table_blocks.specs.Once.{database_once};
ghost use Rattle.row_lists.specs.Lists.{AreStoredLists};
ghost use Rattle.row_lists.specs.Frames.{AreColumnsOfFrame, AreInFrame};

use crate::frame::Frame;
use crate::places::column;
use cqa_value::{Items, NoMemory};
use join_access::Witness;
use std::alloc::Global;
use table_blocks::Database;

/// Lists of names of stored rows, whose tables are those of a frame.
#[derive(Drop)]
pub struct RowLists<'a> {
    pub db: &'a Database,
    pub frame: &'a Frame,
    pub lists: &'a [Witness],
    /// For each slot the places that the rows of its table have in the lists, in order, each once.
    pub columns: Items<Items<u32>>,
    pub ghost database: { IsDatabase db.now } by { database_once db.now },
    pub ghost wide: { length frame.now.slots ≡ length db.now },
    pub ghost within: { AreInFrame frame.now.tables frame.now.slots (names_of lists.now) },
    pub ghost stored: { AreStoredLists db.now (names_of lists.now) },
    pub ghost full: { length columns ≡ length frame.now.tables },
    pub ghost sorted: { ∥ AreColumnsOfFrame frame.now.tables (names_of lists.now) columns ∥₁ },
}

/// The columns of the tables of a frame.
fn columns_of(
    alloc: Global,
    frame: &Frame,
    lists: &[Witness],
) -> Result<Items<Items<u32>>, NoMemory>
    ensures full { IfOk result (λ columns. length columns ≡ length frame.now.tables) }
    ensures columns { IfOk result (AreColumnsOfFrame frame.now.tables (names_of lists.now)) }
{
    let tables = frame.tables.as_slice();
    let mut columns = Vec::with_capacity(alloc, tables.len())?;
    for table in tables {
        columns.push(Items::from_vec(column(alloc, lists, *table)?))?;
    }
    Ok(Items::from_vec(columns))
}

impl<'a> RowLists<'a> {
    ghost use Rattle.std.specs.Prelude.{◌<◌, [], slice_index_or};
    ghost use Rattle.row_lists.specs.Formulas.{AreWithin, table_at};
    ghost use Rattle.row_lists.specs.Frames.{AreTablePlaces};

    /// Lists of names of stored rows, with the frame that has their tables.
    ///
    /// # Errors
    ///
    /// `NoMemory` where memory is refused.
    pub fn new(
        alloc: Global,
        db: &'a Database,
        frame: &'a Frame,
        lists: &'a [Witness],
    ) -> Result<RowLists<'a>, NoMemory>
        requires wide { length frame.now.slots ≡ length db.now }
        requires within { AreWithin frame.now.tables (names_of lists.now) }
        requires stored { AreStoredLists db.now (names_of lists.now) }
        ensures { IfOk result (λ found. (found.db.now ≡ db.now) × (found.frame.now ≡ frame.now) × (found.lists.now ≡ lists.now)) }
    {
        let _tables = db.count();
        let columns = columns_of(alloc, frame, lists)?;
        Ok(RowLists {
            db,
            frame,
            lists,
            columns,
        })
    }

    /// The places that the rows of a slot's table have in the lists, in order, each once.
    pub fn column(&self, slot: usize) -> &[u32]
        requires { slot < length self.now.frame.now.tables }
        ensures is { result.now ≡ slice_index_or self.now.columns slot [] }
        ensures column { AreTablePlaces (names_of self.now.lists.now) (table_at self.now.frame.now.tables slot) result.now }
    {
        self.columns.as_slice()[slot].as_slice()
    }

    /// The table of a slot.
    pub fn table(&self, slot: usize) -> u32
        requires { slot < length self.now.frame.now.tables }
        ensures is { result ≡ table_at self.now.frame.now.tables slot }
        ensures there { result < length self.now.db.now }
    {
        self.frame.tables.as_slice()[slot]
    }
}
