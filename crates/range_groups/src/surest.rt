//! The value that a group has at least, whichever row is kept of each block.

ghost use Rattle.std.specs.Prelude.{◌≡◌, ◌<◌, ◌≤◌, ◌^◌, ℕ, List, None, length};
ghost use Rattle.cqa_model.specs.declared.limits.TheConstants.{MOST_ROWS};
ghost use Rattle.cqa_model.specs.Database.{Table};
ghost use Rattle.range_join.specs.Firsts.{spans_at};
ghost use Rattle.range_join.specs.Peaks.{further, held_value, IsPeak};
ghost use Rattle.range_groups.specs.Spans.{AreSpansOfPlaces};
ghost use Rattle.range_groups.specs.Touched.{carried_at, other_way, sure_value, AreCarriers, IsReadMore, IsSure};

use crate::touched::Carrier;
use cqa_value::Row;
use range_join::{Extreme, Span, further};

/// A block that is being read: where it stands, the place that has to come next if all of its places are carriers', and
/// of the carried rows so far one whose value lies least far.
#[derive(Clone, Copy)]
pub(crate) struct OpenBlock<'a> {
    pub span: Span,
    pub next: u32,
    pub near: Option<&'a Row>,
}

/// Carriers that are being read: of the rows that the blocks before the open one surely give one whose value lies
/// furthest, and the open block.
#[derive(Clone, Copy)]
struct ReadCarriers<'a> {
    best: Option<&'a Row>,
    held: OpenBlock<'a>,
}

/// The other way.
fn other_way(way: Extreme) -> Extreme
    ensures { result ≡ other_way way }
{
    match way {
        Extreme::Least => Extreme::Greatest,
        Extreme::Greatest => Extreme::Least,
    }
}

/// A block of which nothing was read.
fn opened<'a>(span: Span) -> OpenBlock<'a>
    ensures span { result.span ≡ span }
    ensures next { result.next ≡ span.from }
    ensures near { result.near ≡ None }
{
    OpenBlock {
        span,
        next: span.from,
        near: None,
    }
}

/// The same block with one carrier of it more.
fn read_more<'a>(way: Extreme, col: u32, held: OpenBlock<'a>, carrier: Carrier<'a>) -> OpenBlock<'a>
    requires { carrier.place < 2 ^ 31 }
    ensures { IsReadMore way col held.entry carrier.entry result }
{
    OpenBlock {
        span: held.span,
        next: if carrier.place == held.next {
            carrier.place + 1
        } else {
            held.next
        },
        near: further(other_way(way), col, held.near, Some(carrier.row)),
    }
}

/// Of a block that was read a row whose value lies least far, if all of its places are carriers'.
fn sure_row<'a>(held: OpenBlock<'a>) -> Option<&'a Row>
    ensures { (col : ℕ) → held_value col result ≡ sure_value col held.entry }
{
    if held.next == held.span.behind {
        held.near
    } else {
        None
    }
}

/// The carriers that were read with one more, which stands in a span: it is of the open block, or of another one.
fn step<'a>(
    way: Extreme,
    col: u32,
    read: ReadCarriers<'a>,
    carrier: Carrier<'a>,
    span: Span,
) -> ReadCarriers<'a>
    requires { carrier.place < 2 ^ 31 }
    ensures same { carrier.entry.place < read.entry.held.span.behind → (result.best ≡ read.entry.best) × IsReadMore way col read.entry.held carrier.entry result.held }
    ensures other { read.entry.held.span.behind ≤ carrier.entry.place → (held_value col result.best ≡ further way (held_value col read.entry.best) (sure_value col read.entry.held)) × IsReadMore way col (record { span = span; next = span.from; near = None }) carrier.entry result.held }
{
    if carrier.place < read.held.span.behind {
        ReadCarriers {
            best: read.best,
            held: read_more(way, col, read.held, carrier),
        }
    } else {
        ReadCarriers {
            best: further(way, col, read.best, sure_row(read.held)),
            held: read_more(way, col, opened(span), carrier),
        }
    }
}

/// Of the rows that blocks give whichever of their rows is kept one whose value lies furthest that way; none where no
/// block is sure to give one. One walk over the carriers.
pub(crate) fn surest_of<'a>(
    way: Extreme,
    col: u32,
    carriers: &[Carrier<'a>],
    spans: &[Span],
) -> Option<&'a Row>
    requires carriers { AreCarriers (length spans.now) carriers.now }
    requires few { length spans.now ≤ MOST_ROWS }
    ensures { (db : List Table) (table : ℕ) → AreSpansOfPlaces db table spans.now → IsPeak way (IsSure way (carried_at col carriers.now) (spans_at db table)) (held_value col result) }
{
    let mut read = ReadCarriers {
        best: None,
        held: opened(Span { from: 0, behind: 0 }),
    };
    for carrier in carriers {
        read = step(way, col, read, *carrier, spans[carrier.place as usize]);
    }
    further(way, col, read.best, sure_row(read.held))
}
