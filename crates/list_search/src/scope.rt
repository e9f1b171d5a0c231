//! Of which columns it is spoken: rows of a table that agree in them may stand for each other.

ghost use Rattle.std.specs.Prelude.{◌≡◌, length, slice_index};
ghost use Rattle.row_lists.specs.Frames.{IsInFrame};

use cqa_value::Items;
use row_lists::Frame;

/// The tables whose rows are numbered, and for each, by its slot, the columns that are spoken of. It is made once for a
/// statement.
pub struct Scope {
    pub frame: Frame,
    pub columns: Items<Items<u32>>,
    pub ghost wide: { length columns ≡ length frame.tables },
}

impl Drop for Scope {
    fn drop(self) {
        let Scope {
            frame: _,
            columns: _,
        } = self;
    }
}

impl Scope {
    ghost use Rattle.std.specs.Prelude.{◌<◌};
    ghost use Rattle.list_search.specs.Quotients.{columns_at};

    /// The columns of the table at a slot.
    pub fn columns_at(&self, slot: usize) -> &[u32]
        requires { slot < length self.now.frame.tables }
        ensures { result.now ≡ columns_at self.now.columns slot }
    {
        self.columns.as_slice()[slot].as_slice()
    }
}

/// The slot of a table of a frame.
pub(crate) fn slot_of(frame: &Frame, table: u32) -> u32
    requires { IsInFrame frame.now.tables frame.now.slots table }
    ensures { result ≡ slice_index frame.now.slots table }
{
    frame.slots.as_slice()[table as usize]
}
