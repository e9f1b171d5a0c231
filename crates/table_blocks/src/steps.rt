//! Comparisons of keys, counted in a ledger.
//! A clause can bound them, and they cost no byte.
ghost use Rattle.std.specs.Prelude.{◌≡◌, ◌+◌, ◌<◌, ◌≤◌, length};
ghost use Rattle.row_order.specs.Spans.{probe_cmp};

use crate::order::compare_key;
use cqa_value::Row;
use row_order::Probe;
use std::cmp::Ordering;
use std::marker::Model;
use std::sync::ledger::{Blank, Book, Ledger, Share};

/// How many keys were compared. It takes no bytes, and only `compare` changes it.
#[derive(Drop)]
pub struct Steps<L: Ledger> {
    book: Book<L>,
    share: Share<L>,
}

impl<L: Ledger> Model for Steps<L> {
    ghost use Rattle.std.specs.Prelude.{ℕ, ◌<◌};

    ghost Value = { ℕ };

    ghost view = { λ s. s.book.total };

    ghost invariant = { λ s. 0 < s.share.parts };
}

impl<L: Ledger> Steps<L> {
    /// No steps yet.
    pub fn new(blank: Blank) -> Steps<L>
        requires name { blank.name ≡ L.name }
        requires parts { blank.parts ≡ L.parts }
        requires some { 0 < blank.parts }
        ensures { result ≡ 0 }
    {
        let (book, share) = blank.open::<L>();
        Steps { book, share }
    }

    /// Compares the first key values of a row with a probe, at the cost of a step.
    pub fn compare(&mut self, key: &[u32], probe: &Probe<'_>, row: &Row) -> Ordering
        requires { length probe.now ≤ length key.now }
        ensures answer { result ≡ probe_cmp key.now probe.now row.now }
        ensures cost { self.new ≡ self.old + 1 }
    {
        self.book.add(&mut self.share, 1);
        compare_key(key, probe, row)
    }
}
