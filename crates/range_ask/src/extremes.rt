//! Both ends of a least or a greatest value, row by row, as sums are added up.

ghost use Rattle.std.specs.Prelude.{◌≡◌, ◌+◌, ◌^◌, ◌<◌, ◌++◌, ◌∷◌, Bool, List, [], None, IfOk, IfSome, length};
ghost use Rattle.cqa_value.specs.declared.value.Value.{Value as Cell};
ghost use Rattle.table_blocks.specs.Tables.{rows_at};
ghost use Rattle.range_ask.specs.Ranges.{meets};
ghost use Rattle.range_ask.specs.Picks.{IsInBlocks};
ghost use Rattle.range_ask.specs.Finding.{avoided_place, spot_place, IsMetSoFar};
ghost use Rattle.range_ask.specs.Walking.{IsNextBlock};
ghost use Rattle.range_ask.specs.Reaching.{AreExtremes};

use crate::found::{Met, begun, read_row};
use crate::reach::{Reach, avoiding, keep, meeting};
use crate::top::{Top, further_top};
use crate::way::{Look, Way};
use crate::wide::note;
use cqa_value::NoMemory;
use row_blocks::same_key;
use std::alloc::Global;
use table_blocks::Database;

/// What is kept for both ends, one row of each block: rows that don't meet the tests, or else those of least far values; and rows of
/// furthest values. Beside them, which row of all that meet the tests lies least far, and the numbers of the blocks that have two or
/// more rows.
#[derive(Drop)]
pub struct Extremes<'a> {
    pub avoids: Reach<'a>,
    pub meets: Reach<'a>,
    pub top: Option<Top<'a>>,
    pub wide: Vec<usize>,
}

/// No row is kept.
fn blank<'a>(alloc: Global) -> Extremes<'a>
    ensures avoids { result.avoids.places.items ≡ [] }
    ensures none_avoids { result.avoids.extreme ≡ None }
    ensures meets { result.meets.places.items ≡ [] }
    ensures none_meets { result.meets.extreme ≡ None }
    ensures top { result.top ≡ None }
    ensures wide { result.wide.items ≡ [] }
{
    Extremes {
        avoids: Reach {
            places: Vec::new(alloc),
            extreme: None,
        },
        meets: Reach {
            places: Vec::new(alloc),
            extreme: None,
        },
        top: None,
        wide: Vec::new(alloc),
    }
}

/// A block was read: a row of it goes to each end.
fn close<'a>(way: Way, col: u32, held: Met<'a>, ends: &mut Extremes<'a>) -> Result<(), NoMemory>
    requires avoids { held.start + avoided_place held.missing held.near < 2 ^ 31 }
    requires meets { held.start + spot_place held.far < 2 ^ 31 }
    requires near { IfSome held.near (λ spot. held.start + spot.at < 2 ^ 31) }
    ensures { IfOk result (λ done. (p : List Cell → Bool) (rows : List (List Cell)) (front : List (List (List Cell))) (block : List (List Cell)) (later : List (List (List Cell))) → IsNextBlock rows front block later held.entry.start → IsMetSoFar way p col block (length block) held.entry → AreExtremes way p col rows front ends.old → AreExtremes way p col rows (front ++ block ∷ []) ends.new) }
{
    let number = ends.avoids.places.len();
    note(&mut ends.wide, number, held.read)?;
    keep(way, col, &mut ends.avoids, held.start, avoiding(&held))?;
    keep(way, col, &mut ends.meets, held.start, meeting(&held))?;
    ends.top = further_top(way.turned(), col, ends.top, number, held.start, held.near);
    Ok(())
}

/// Both ends of a least or a greatest value.
///
/// # Errors
///
/// `NoMemory` where memory is refused.
pub(crate) fn find_extremes<'a>(
    alloc: Global,
    db: &'a Database,
    table: u32,
    look: &Look<'_>,
) -> Result<Extremes<'a>, NoMemory>
    requires { table < length db.now }
    ensures { IfOk result (λ ends. (blocks : List (List (List Cell))) × IsInBlocks db.now table blocks × AreExtremes look.now.way (meets look.now.tests.now) look.now.col (rows_at db.now table) blocks ends) }
{
    let mut ends = blank(alloc);
    let key = db.schema(table).key.as_slice();
    let mut left = db.rows(table);
    let Some(first) = left.next() else {
        return Ok(ends);
    };
    let mut last = first;
    let mut held = begun(look, 0, first);
    while let Some(row) = left.next() {
        if same_key(key, last, row) {
            held = read_row(look, held, row);
        } else {
            close(look.way, look.col, held, &mut ends)?;
            held = begun(look, held.start + held.read, row);
        }
        last = row;
    }
    close(look.way, look.col, held, &mut ends)?;
    Ok(ends)
}
