//! The kept row of a block, where it is another than a given one, among names in order.
//! It is found by halving, so that names that matter for no witness aren't walked.

ghost use Rattle.std.specs.Prelude.{◌≡◌, ◌≤◌, ◌<◌, ◌↔◌, ℕ, IsTrue, length};
ghost use Rattle.std.specs.List.Sorted.{IsStrictlySortedBy};
ghost use Rattle.cqa_model.specs.Database.{block_cmp};
ghost use Rattle.rows_against.specs.Parts.{AreOfOwnBlocks, IsBelow, IsInBlock, IsOtherIn, IsTablePart, kept_name_at};

use cqa_model::RowId;
use row_blocks::goes_on;
use row_pieces::Rows;

/// Whether a name is of a table, at a place before another.
fn is_below(names: &[RowId], at: usize, table: u32, place: u32) -> bool
    requires { at < length names.now }
    ensures { IsTrue result ↔ IsBelow names.now table place at }
{
    let name = names[at];
    name.table == table && name.place < place
}

/// The index behind the names of a table that are at places before another, where those of the table come first from an
/// index on.
pub(crate) fn first_from(names: &[RowId], from: usize, table: u32, place: u32) -> usize
    requires { IsTablePart names.now from table }
    ensures after { from ≤ result }
    ensures within { result ≤ length names.now }
    ensures before { (k : ℕ) → from ≤ k → k < result → IsBelow names.now table place k }
    ensures behind { (k : ℕ) → result ≤ k → k < length names.now → IsBelow names.now table place k → ⊥ }
{
    let mut low = from;
    let mut high = names.len();
    while low < high {
        let middle = low + (high - low) / 2;
        if is_below(names, middle, table, place) {
            low = middle + 1;
        } else {
            high = middle;
        }
    }
    low
}

/// Whether a name is of the block of a row.
fn is_in_block(rows: &Rows<'_>, key: &[u32], names: &[RowId], at: usize, own: RowId) -> bool
    requires there { own.place < length rows.now }
    requires stored { at < length names.now → (kept_name_at names.now at).table ≡ own.table → (kept_name_at names.now at).place < length rows.now }
    ensures { IsTrue result ↔ IsInBlock key.now rows.now names.now own at }
{
    at < names.len()
        && names[at].table == own.table
        && goes_on(rows, key, names[at].place as usize, own.place as usize)
}

/// The number of the name that is another row of a row's block.
pub(crate) fn rival_of(
    rows: &Rows<'_>,
    key: &[u32],
    names: &[RowId],
    from: usize,
    own: RowId,
) -> Option<usize>
    requires order { IsStrictlySortedBy (block_cmp key.now) rows.now }
    requires there { own.place < length rows.now }
    requires part { IsTablePart names.now from own.table }
    requires apart { AreOfOwnBlocks key.now rows.now names.now from own.table }
    ensures { IsOtherIn key.now rows.now names.now from own result }
{
    let at = first_from(names, from, own.table, own.place);
    if is_in_block(rows, key, names, at, own) {
        return if names[at].place == own.place {
            None
        } else {
            Some(at)
        };
    }
    if at > from && is_in_block(rows, key, names, at - 1, own) {
        Some(at - 1)
    } else {
        None
    }
}
