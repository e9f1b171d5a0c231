//! The tables whose rows are numbered, in the order in which they are.
//! A table's slot, its place among them, is found by one look.

ghost use Rattle.std.specs.Prelude.{◌≡◌, ◌<◌, ◌≤◌, ◌↔◌, ℕ, Contains, IfOk, length, slice_index};
ghost use Rattle.std.specs.Ordering.{nat_cmp};
ghost use Rattle.std.specs.List.Sorted.{IsStrictlySortedBy};
ghost use Rattle.cqa_model.specs.declared.limits.TheConstants.{MOST_TABLES};
ghost use Rattle.row_lists.specs.Formulas.{IsFrame};
ghost use Rattle.row_lists.specs.Frames.{AreSlots};

use cqa_value::{Items, NoMemory};
use join_access::put_in_order;
use std::alloc::Global;
use table_blocks::Database;

/// Tables, each once, and for each table of the database its slot: its place among these. A table that isn't among them has
/// any slot.
pub struct Frame {
    pub tables: Items<u32>,
    pub slots: Items<u32>,
    pub ghost few: { length tables ≤ MOST_TABLES },
    pub ghost kept: { AreSlots tables slots },
}

impl Drop for Frame {
    fn drop(self) {
        let Frame {
            tables: _,
            slots: _,
        } = self;
    }
}

/// The slots of so many tables, where these have slots.
fn slots_of(alloc: Global, count: u32, tables: &[u32]) -> Result<Items<u32>, NoMemory>
    requires few { length tables.now ≤ MOST_TABLES }
    requires there { (s : ℕ) → s < length tables.now → slice_index tables.now s < count }
    requires apart { (r s : ℕ) → r < length tables.now → s < length tables.now → slice_index tables.now r ≡ slice_index tables.now s → r ≡ s }
    ensures wide { IfOk result (λ slots. length slots ≡ count) }
    ensures slots { IfOk result (λ slots. AreSlots tables.now slots) }
{
    let mut slots = vec![in alloc; 0; count as usize]?;
    for slot in 0..tables.len() {
        slots[tables[slot] as usize] = slot as u32;
    }
    Ok(Items::from_vec(slots))
}

/// The frame of tables of a database, in the order in which they stand.
///
/// # Errors
///
/// `NoMemory` where memory is refused.
pub fn frame_of(alloc: Global, db: &Database, tables: Vec<u32>) -> Result<Frame, NoMemory>
    requires few { length tables.items ≤ MOST_TABLES }
    requires there { (s : ℕ) → s < length tables.items → slice_index tables.items s < length db.now }
    requires apart { (r s : ℕ) → r < length tables.items → s < length tables.items → slice_index tables.items r ≡ slice_index tables.items s → r ≡ s }
    ensures frame { IfOk result (λ frame. IsFrame db.now frame.tables) }
    ensures wide { IfOk result (λ frame. length frame.slots ≡ length db.now) }
    ensures same { IfOk result (λ frame. frame.tables ≡ tables.items) }
{
    let slots = slots_of(alloc, db.count(), tables.as_slice())?;
    Ok(Frame {
        tables: Items::from_vec(tables),
        slots,
    })
}

/// The frame of tables of a database, in the order of their creation, each once.
///
/// # Errors
///
/// `NoMemory` where memory is refused.
pub fn rising_frame(alloc: Global, db: &Database, mut tables: Vec<u32>) -> Result<Frame, NoMemory>
    requires { (t : ℕ) → Contains tables.items t → t < length db.now }
    ensures frame { IfOk result (λ frame. IsFrame db.now frame.tables) }
    ensures wide { IfOk result (λ frame. length frame.slots ≡ length db.now) }
    ensures rises { IfOk result (λ frame. IsStrictlySortedBy nat_cmp frame.tables) }
    ensures same { IfOk result (λ frame. (t : ℕ) → Contains frame.tables t ↔ Contains tables.items t) }
{
    let _tables = db.count();
    put_in_order(&mut tables);
    frame_of(alloc, db, tables)
}
