//! The numbers of rows in spans, by which they are variables of a formula.
//! A row's number is found by halving, in time that doesn't grow with the table.

ghost use Rattle.std.specs.Prelude.{◌≡◌, ◌↔◌, ◌+◌, ◌-◌, ℕ, suc, Some, IsTrue, Contains};
ghost use Rattle.std.proofs.Props.{props};
ghost use Rattle.row_lists.specs.declared.span.Span.{Span as Run};
ghost use Rattle.row_lists.specs.Spans.{at, AreSpansApart, AreBasedTo-prop, BeginsAtOrBefore, HasSpan, IsAt, IsInSpan, IsSpanNumbering, IsOnlyAt};

use crate::span::Span;
use cqa_value::Items;

/// Spans that are apart from each other, and how many rows they have in all. The rows are numbered one after the other from 1.
pub struct Numbering {
    pub spans: Items<Span>,
    pub vars: u32,
    pub ghost kept: { IsSpanNumbering spans vars } by { Prim.hlevel (AreBasedTo-prop, props) },
}

impl Drop for Numbering {
    fn drop(self) {
        let Numbering { spans: _, vars: _ } = self;
    }
}

/// Whether a span begins at the place of a slot, or before it.
fn begins(span: &Span, slot: u32, place: u32) -> bool
    ensures { IsTrue result ↔ BeginsAtOrBefore span.now slot place }
{
    span.slot < slot || (span.slot == slot && span.start <= place)
}

/// Whether a span has the place of a slot.
fn covers(span: &Span, slot: u32, place: u32) -> bool
    ensures { IsTrue result ↔ IsInSpan span.now (at slot place) }
{
    span.slot == slot && span.start <= place && place - span.start < span.count
}

/// The index of the last span that begins at the place of a slot or before it, by halving, or 0 where none does. No other
/// span can have the place.
fn last_begun(spans: &[Span], slot: u32, place: u32) -> usize
    requires { AreSpansApart spans.now }
    ensures { IsOnlyAt spans.now slot place result }
{
    let mut low = 0;
    let mut high = spans.len();
    while high - low > 1 {
        let middle = low + (high - low) / 2;
        if begins(&spans[middle], slot, place) {
            low = middle;
        } else {
            high = middle;
        }
    }
    low
}

/// The index of the span that has the place of a slot, if one has it.
pub fn find_span(numbering: &Numbering, slot: u32, place: u32) -> Option<usize>
    ensures { (k : ℕ) → (result ≡ Some k) ↔ IsAt numbering.now.spans slot place k }
{
    let spans = numbering.spans.as_slice();
    let found = last_begun(spans, slot, place);
    if found < spans.len() && covers(&spans[found], slot, place) {
        Some(found)
    } else {
        None
    }
}

/// The number of a row that is in one of the spans.
pub fn number(numbering: &Numbering, slot: u32, place: u32) -> u32
    requires { HasSpan numbering.now.spans slot place }
    ensures { (s : Run) → Contains numbering.now.spans s → IsInSpan s (at slot place) → result ≡ suc (s.base + (place - s.start)) }
{
    let spans = numbering.spans.as_slice();
    let span = spans[last_begun(spans, slot, place)];
    span.base + 1 + (place - span.start)
}
