//! Rows that are taken out of a list of rows.

ghost use Rattle.std.specs.Prelude.{◌≡◌, ◌≤◌, ◌+◌, ◌-◌, ◌++◌, Bool, List, filter, length, map, take, drop};
ghost use Rattle.row_pieces.specs.Marks.{row_mark};
ghost use Rattle.std.specs.Fn.{ComputesKey};
ghost use Rattle.cqa_value.specs.declared.value.Value.{Value as Cell};

use cqa_value::Row;

/// Moves the rows that pass a test to the front, with their marks and in the order that they had, and gives their number and the
/// test.
fn keep<P: FnMut(&Row) -> bool>(rows: &mut [Row], marks: &mut [u64], mut stays: P) -> (usize, P)
    requires callable { P.IsAlwaysCallable stays }
    requires marked { marks.old ≡ map row_mark rows.old }
    ensures marked { marks.new ≡ map row_mark rows.new }
    ensures within { result.0 ≤ length rows.old }
    ensures callable { P.IsAlwaysCallable result.1 }
    ensures kept { (p : List Cell → Bool) → ComputesKey P.FnMut p stays → ComputesKey P.FnMut p result.1 × (take result.0 rows.new ≡ filter p rows.old) }
{
    let mut kept = 0;
    for at in 0..rows.len() {
        if stays(&rows[at]) {
            rows.swap(kept, at);
            marks.swap(kept, at);
            kept += 1;
        }
    }
    (kept, stays)
}

/// Moves the rows that are told to stay to the front, with their marks and in the order that they had, and gives their number.
fn keep_told(rows: &mut [Row], marks: &mut [u64], stays: &[bool]) -> usize
    requires each { length stays.now ≡ length rows.old }
    requires marked { marks.old ≡ map row_mark rows.old }
    ensures marked { marks.new ≡ map row_mark rows.new }
    ensures within { result ≤ length rows.old }
    ensures kept { (p : List Cell → Bool) → stays.now ≡ map p rows.old → take result rows.new ≡ filter p rows.old }
{
    let mut kept = 0;
    for at in 0..rows.len() {
        if stays[at] {
            rows.swap(kept, at);
            marks.swap(kept, at);
            kept += 1;
        }
    }
    kept
}

/// Moves the rows of a range that pass a test to its front.
pub fn keep_in<P: FnMut(&Row) -> bool>(
    rows: &mut [Row],
    marks: &mut [u64],
    from: usize,
    to: usize,
    stays: P,
) -> (usize, P)
    requires callable { P.IsAlwaysCallable stays }
    requires marked { marks.old ≡ map row_mark rows.old }
    requires order { from ≤ to }
    requires within { to ≤ length rows.old }
    ensures within { from + result.0 ≤ to }
    ensures callable { P.IsAlwaysCallable result.1 }
    ensures long { length rows.new ≡ length rows.old }
    ensures marked { marks.new ≡ map row_mark rows.new }
    ensures kept { (p : List Cell → Bool) → ComputesKey P.FnMut p stays → ComputesKey P.FnMut p result.1 × (take (from + result.0) rows.new ≡ take from rows.old ++ filter p (take (to - from) (drop from rows.old))) }
    ensures behind { drop to rows.new ≡ drop to rows.old }
{
    keep(&mut rows[from..to], &mut marks[from..to], stays)
}

/// Moves the rows of a range that are told to stay to its front.
pub fn keep_told_in(
    rows: &mut [Row],
    marks: &mut [u64],
    from: usize,
    to: usize,
    stays: &[bool],
) -> usize
    requires marked { marks.old ≡ map row_mark rows.old }
    requires order { from ≤ to }
    requires within { to ≤ length rows.old }
    requires each { length stays.now ≡ to - from }
    ensures within { from + result ≤ to }
    ensures long { length rows.new ≡ length rows.old }
    ensures marked { marks.new ≡ map row_mark rows.new }
    ensures kept { (p : List Cell → Bool) → stays.now ≡ map p (take (to - from) (drop from rows.old)) → take (from + result) rows.new ≡ take from rows.old ++ filter p (take (to - from) (drop from rows.old)) }
    ensures behind { drop to rows.new ≡ drop to rows.old }
{
    keep_told(&mut rows[from..to], &mut marks[from..to], stays)
}
