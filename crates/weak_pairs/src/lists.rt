//! The lists of rows, whose values tell which rows meet.

ghost use Rattle.std.specs.Prelude.{◌≡◌, ◌↔◌, ◌<◌, ◌≤◌, ◌^◌, IsTrue, length, map};
ghost use Rattle.weak_pairs.specs.Digests.{bucket_of, lists_in};
ghost use Rattle.weak_pairs.specs.EdgeNumbers.{HaveOne};
ghost use Rattle.weak_pairs.specs.Packing.{list_of};
ghost use Rattle.weak_pairs.specs.Ranks.{list_cmp};

use crate::packed::bucket as code_bucket;
use crate::picked::Picked;
use std::cmp::Ordering;

/// The lists of rows, one after the other: each by its code, where all have one, or else each borrowed from its row.
#[derive(Drop)]
pub enum ListForm<'a> {
    Packed(Vec<u64>),
    Borrowed(Vec<Option<Picked<'a>>>),
}

/// The lists of rows, so few that each row has a number.
#[derive(Drop)]
pub struct Lists<'a> {
    pub form: ListForm<'a>,
    pub ghost few: { length (lists_in form) < 2 ^ 32 },
}

/// Whether two codes are of one list.
fn have_one_code(codes: &[u64], i: u32, j: u32) -> bool
    requires first { i < length codes.now }
    requires second { j < length codes.now }
    ensures { IsTrue result ↔ HaveOne (map list_of codes.now) i j }
{
    let code = codes[i as usize];
    code != 0 && code == codes[j as usize]
}

impl<'a> Lists<'a> {
    /// How many rows there are.
    pub fn len(&self) -> usize
        ensures { result ≡ length (lists_in self.now.form) }
    {
        match &self.form {
            ListForm::Packed(codes) => codes.len(),
            ListForm::Borrowed(lists) => lists.len(),
        }
    }

    /// The bucket of the list of a row, of as many as there are rows; what is no list is in none.
    pub(crate) fn bucket(&self, at: usize) -> usize
        requires there { at < length (lists_in self.now.form) }
        ensures is { result ≡ bucket_of (length (lists_in self.now.form)) self.now.form at }
        ensures within { result ≤ length (lists_in self.now.form) }
    {
        match &self.form {
            ListForm::Packed(codes) => code_bucket(codes[at], codes.len()),
            ListForm::Borrowed(lists) => match &lists[at] {
                None => lists.len(),
                Some(values) => (values.digest() % lists.len() as u64) as usize,
            },
        }
    }

    /// Whether two rows have one list. (Numbering rows is a third slower where this is a call.)
    #[inline(always)]
    pub(crate) fn have_one(&self, i: u32, j: u32) -> bool
        requires first { i < length (lists_in self.now.form) }
        requires second { j < length (lists_in self.now.form) }
        ensures { IsTrue result ↔ HaveOne (lists_in self.now.form) i j }
    {
        match &self.form {
            ListForm::Packed(codes) => have_one_code(codes, i, j),
            ListForm::Borrowed(lists) => match (&lists[i as usize], &lists[j as usize]) {
                (Some(x), Some(y)) => x.is_same(y),
                _ => false,
            },
        }
    }

    /// Compares the lists of two rows. What is no list comes first.
    pub(crate) fn compare(&self, i: u32, j: u32) -> Ordering
        ensures { result ≡ list_cmp self.now.form i j }
    {
        match &self.form {
            ListForm::Packed(codes) => {
                let one = codes.get(i as usize).unwrap_or(&0);
                one.cmp(codes.get(j as usize).unwrap_or(&0))
            }
            ListForm::Borrowed(lists) => {
                let one = lists.get(i as usize).unwrap_or(&None);
                let other = lists.get(j as usize).unwrap_or(&None);
                match (one, other) {
                    (Some(x), Some(y)) => x.compare(y),
                    _ => one.is_some().cmp(&other.is_some()),
                }
            }
        }
    }
}
