//! Of each block of a table a row that no other row of the block goes before.

ghost use Rattle.std.specs.Prelude.{◌≡◌, ◌+◌, ◌^◌, ◌<◌, ℕ, Bool, IfOk, if◌then◌else◌, length};
ghost use Rattle.table_blocks.specs.Tables.{rows_at};
ghost use Rattle.range_join.specs.Firsts.{AreFirsts, ComputesBelow, IsStrictOrder};

use cqa_value::NoMemory;
use row_blocks::same_key;
use std::alloc::Global;
use table_blocks::Database;

/// A block that is being read: the place of its first row, how many were read, and of those one that none goes before,
/// by how many rows of the block stand before it.
#[derive(Clone, Copy)]
struct Open {
    start: u32,
    read: u32,
    first: u32,
}

/// A block of which one row was read.
fn opened(start: u32) -> Open
    ensures start { result.start ≡ start }
    ensures read { result.read ≡ 1 }
    ensures first { result.first ≡ 0 }
{
    Open {
        start,
        read: 1,
        first: 0,
    }
}

/// The same block with one row of it more.
fn read_more<P: Fn(u32, u32) -> bool>(held: Open, goes_before: &P) -> Open
    requires fits { held.start + held.read < 2 ^ 31 }
    requires first { held.first < held.read }
    requires callable { P.pre goes_before.now (held.start + held.read) (held.start + held.first) }
    ensures start { result.start ≡ held.start }
    ensures read { result.read ≡ held.read + 1 }
    ensures first { (goes : Bool) × P.post goes_before.now (held.start + held.read) (held.start + held.first) goes × (result.first ≡ if goes then held.read else held.first) }
{
    let goes = goes_before(held.start + held.read, held.start + held.first);
    Open {
        start: held.start,
        read: held.read + 1,
        first: if goes { held.read } else { held.first },
    }
}

/// For each block of a table, in block order, the place of a row that no other row of the block goes before. One walk
/// over the rows.
///
/// # Errors
///
/// `NoMemory` where memory is refused.
pub fn firsts<P: Fn(u32, u32) -> bool>(
    alloc: Global,
    db: &Database,
    table: u32,
    goes_before: &P,
) -> Result<Vec<u32>, NoMemory>
    requires there { table < length db.now }
    requires callable { (i j : ℕ) → i < length (rows_at db.now table) → j < length (rows_at db.now table) → P.pre goes_before.now i j }
    ensures { IfOk result (λ places. (before : ℕ → ℕ → Bool) → IsStrictOrder before → ComputesBelow (P.post goes_before.now) (length (rows_at db.now table)) before → AreFirsts before db.now table places.items) }
{
    let mut places = Vec::new(alloc);
    let key = db.schema(table).key.as_slice();
    let mut left = db.rows(table);
    let Some(first) = left.next() else {
        return Ok(places);
    };
    let mut last = first;
    let mut held = opened(0);
    while let Some(row) = left.next() {
        if same_key(key, last, row) {
            held = read_more(held, goes_before);
        } else {
            places.push(held.start + held.first)?;
            held = opened(held.start + held.read);
        }
        last = row;
    }
    places.push(held.start + held.first)?;
    Ok(places)
}
