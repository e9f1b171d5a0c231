//! How many rows come first that pass a test, found from the front: what stands near the front, or where marks tell its place, is
//! found in few steps, however many rows there are.
ghost use Rattle.std.specs.Prelude.{◌≡◌, ◌≤◌, Bool, true, false, List, Some, IfSome, length, slice_get};
ghost use Rattle.std.specs.Fn.{ComputesKey};
ghost use Rattle.std.specs.List.Sorted.{IsPartitionedBy, IsPartitionPoint};
ghost use Rattle.cqa_value.specs.declared.value.Value.{Value as Cell};
ghost use Rattle.row_pieces.specs.Marks.{FollowsFirst, FollowsSecond};

use cqa_value::{Row, Value};
use row_pieces::Rows;

/// How many rows come first that pass a test, where it parts the rows: by doubling steps from the first row on, and by
/// halving within the last step (Bentley, Yao 1976). Behind the first row a step goes over `reach` rows more: where the end
/// is expected so far on, few are tested (Hwang, Lin 1972).
pub fn leading<P: FnMut(&Row) -> bool>(rows: &Rows<'_>, reach: usize, mut passes: P) -> usize
    requires { P.IsAlwaysCallable passes }
    ensures within { result ≤ length rows.now }
    ensures partitioned { (p : List Cell → Bool) → ComputesKey P.FnMut p passes → IsPartitionedBy p rows.now → IsPartitionPoint (λ row. p row ≡ true) (λ row. p row ≡ false) rows.now result }
{
    let reach = reach.min(rows.len());
    let mut passed = 0usize;
    let end = loop {
        let step = if passed == 0 {
            0
        } else {
            reach.saturating_add(passed - 1)
        };
        let next = passed.saturating_add(step);
        if next >= rows.len() {
            break rows.len();
        }
        if !passes(rows.get(next)) {
            break next;
        }
        passed = next + 1;
    };
    rows.halve(passed, end, passes)
}

/// The first value of a row, if there is one and the key begins with the first column.
pub fn first_keyed<'a>(key: &[u32], row: &'a Row) -> Option<&'a Value>
    ensures { IfSome result (λ value. (slice_get key.now 0 ≡ Some 0) × (slice_get row.now 0 ≡ Some value.now)) }
{
    if row.len() > 0 && key.first() == Some(&0) {
        Some(row.get(0))
    } else {
        None
    }
}

/// The second value of a row, if there is one and the second column of the key is the second one.
pub fn second_keyed<'a>(key: &[u32], row: &'a Row) -> Option<&'a Value>
    ensures { IfSome result (λ value. (slice_get key.now 1 ≡ Some 1) × (slice_get row.now 1 ≡ Some value.now)) }
{
    if row.len() > 1 && key.get(1) == Some(&1) {
        Some(row.get(1))
    } else {
        None
    }
}

/// How many rows come first that pass a test, where it parts the rows; where a value is given, the test follows the first values
/// of rows, and the second ones where a second value is given, and only those rows are tried whose marks don't tell.
pub fn parted<P: FnMut(&Row) -> bool>(
    rows: &Rows<'_>,
    near: Option<&Value>,
    second: Option<&Value>,
    passes: P,
) -> usize
    requires { P.IsAlwaysCallable passes }
    ensures within { result ≤ length rows.now }
    ensures partitioned { (p : List Cell → Bool) → ComputesKey P.FnMut p passes → IfSome near.entry (λ value. FollowsFirst value.now p × IfSome second.entry (λ then. FollowsSecond value.now then.now p)) → IsPartitionedBy p rows.now → IsPartitionPoint (λ row. p row ≡ true) (λ row. p row ≡ false) rows.now result }
{
    match near {
        Some(value) => rows.partition_point_near(value, second, passes),
        None => rows.partition_point(passes),
    }
}
