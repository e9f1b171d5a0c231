//! The blocks of one table that have a row at one of some places.
//! They are found one after the other, and their rows are numbered.

ghost use Rattle.std.specs.Prelude.{◌*◌, ◌≤◌, IfOk, length};
ghost use Rattle.std.specs.List.Sorted.{IsStrictlySortedBy};
ghost use Rattle.cqa_model.specs.Database.{block_cmp};
ghost use Rattle.cqa_model.specs.declared.limits.TheConstants.{MOST_ROWS, MOST_TABLES};
ghost use Rattle.row_lists.specs.Runs.{AreRowPlaces, AreRuns};

use crate::span::Span;
use cqa_value::{Items, NoMemory};
use row_blocks::{block_end, block_start};
use row_pieces::Rows;
use std::alloc::Global;

/// Blocks, and how many variables come up to their end.
#[derive(Drop)]
pub struct Spans {
    pub list: Items<Span>,
    pub vars: u32,
}

/// The blocks of a slot's rows that have one of these places, in block order; their rows are numbered from `base` on.
///
/// It looks at few rows of a block, so its time grows with the places, and hardly with the blocks.
///
/// # Errors
///
/// `NoMemory` where memory is refused.
pub fn runs(
    alloc: Global,
    rows: &Rows<'_>,
    key: &[u32],
    slot: u32,
    base: u32,
    places: &[u32],
) -> Result<Spans, NoMemory>
    requires order { IsStrictlySortedBy (block_cmp key.now) rows.now }
    requires few { length rows.now ≤ MOST_ROWS }
    requires small { base ≤ MOST_TABLES * MOST_ROWS }
    requires places { AreRowPlaces rows.now places.now }
    ensures { IfOk result (λ spans. AreRuns key.now rows.now slot base places.now spans.vars spans.list) }
{
    let mut spans = Items::new(alloc);
    let mut end = 0;
    let mut next = base;
    let mut i = 0;
    while i < places.len() {
        let place = places[i] as usize;
        if place >= end {
            let start = block_start(rows, key, place);
            end = block_end(rows, key, start);
            let count = (end - start) as u32;
            spans.push(Span {
                slot,
                start: start as u32,
                count,
                base: next,
            })?;
            next += count;
        }
        i += 1;
    }
    Ok(Spans {
        list: spans,
        vars: next,
    })
}
