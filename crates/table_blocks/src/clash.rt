//! Rows that share a key: the first two of them, which keep a table from being strict.
ghost use Rattle.std.specs.Prelude.{◌≡◌, Some, None, IsNone, MatchOption, IfOk};
ghost use Rattle.std.specs.List.Sorted.{IsStrictlySortedBy};
ghost use Rattle.cqa_model.specs.Database.{AreConsistent, block_cmp};
ghost use Rattle.table_blocks.specs.Keys.{same_key, first_clash};

use cqa_value::{NoMemory, Row};
use row_order::key_compare;
use row_pieces::Rows;
use std::alloc::Global;

/// Two different rows that share a key.
#[derive(Drop)]
pub struct Clash {
    pub first: Row,
    pub second: Row,
}

/// Whether two rows share a key.
pub fn shares_key(key: &[u32], a: &Row, b: &Row) -> bool
    ensures { result ≡ same_key key.now a.now b.now }
{
    key_compare(key, a, b).is_eq()
}

/// The first two rows of the first block of more than one row.
fn first_broken<'a>(rows: &Rows<'a>, key: &[u32]) -> Option<(&'a Row, &'a Row)>
    ensures { MatchOption result (first_clash key.now rows.now ≡ None) (λ pair. first_clash key.now rows.now ≡ Some (record { first = pair.0.now; second = pair.1.now })) }
{
    let (mut first, rest) = rows.split_first()?;
    for second in rest {
        if shares_key(key, first, second) {
            return Some((first, second));
        }
        first = second;
    }
    None
}

/// Copies of the first two rows of the first block of more than one row, of rows in block order. Where there are none, no two
/// of the rows share the key.
///
/// # Errors
///
/// `NoMemory` where memory is refused.
pub fn clash_of(alloc: Global, rows: &Rows<'_>, key: &[u32]) -> Result<Option<Clash>, NoMemory>
    requires { IsStrictlySortedBy (block_cmp key.now) rows.now }
    ensures is { IfOk result (λ clash. clash ≡ first_clash key.now rows.now) }
    ensures consistent { IfOk result (λ clash. IsNone clash → AreConsistent key.now rows.now) }
{
    let Some((first, second)) = first_broken(rows, key) else {
        return Ok(None);
    };
    let first = first.copy(alloc)?;
    let second = second.copy(alloc)?;
    Ok(Some(Clash { first, second }))
}
