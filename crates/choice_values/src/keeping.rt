//! The rows of blocks that lists name, put aside and put back.

ghost use Rattle.std.specs.Prelude.{◌≡◌, ◌≢◌, ◌<◌, ◌++◌, ℕ, IfOk, length};
ghost use Rattle.choice_values.specs.Choosing.{picked};
ghost use Rattle.choice_values.specs.Keeping.{AreAside, ArePutBack, rows_at};

use crate::best::Fault;
use crate::lists::WeightedLists;
use block_choices::BlockRow;

/// A block keeps a row, if it is there.
pub fn keep(rows: &mut Vec<u32>, block: u32, row: u32)
    ensures size { length rows.new.items ≡ length rows.old.items }
    ensures here { block < length rows.old.items → picked rows.new.items block ≡ row }
    ensures other { (x : ℕ) → x ≢ block → picked rows.new.items x ≡ picked rows.old.items x }
{
    let at = block as usize;
    if at < rows.len() {
        rows[at] = row;
    }
}

/// The row of a block.
pub fn row_of(rows: &[u32], block: u32) -> u32
    ensures { result ≡ picked rows.now block }
{
    *rows.get(block as usize).unwrap_or(&0)
}

/// Puts the rows of a list's blocks aside, behind others.
fn put_names_aside(names: &[BlockRow], rows: &[u32], aside: &mut Vec<BlockRow>) -> Result<(), Fault>
    ensures { IfOk result (λ done. aside.new.items ≡ aside.old.items ++ rows_at rows.now names.now) }
{
    for name in names {
        aside.push(BlockRow {
            block: name.block,
            row: row_of(rows, name.block),
        })?;
    }
    Ok(())
}

/// Puts the rows of the lists' blocks aside.
///
/// # Errors
///
/// `NoMemory` where memory is refused.
pub fn put_aside(
    lists: &WeightedLists,
    rows: &[u32],
    aside: &mut Vec<BlockRow>,
) -> Result<(), Fault>
    ensures { IfOk result (λ done. AreAside lists.now rows.now aside.new.items) }
{
    aside.clear();
    for at in 0..lists.len() {
        put_names_aside(lists.names(at), rows, aside)?;
    }
    Ok(())
}

/// Puts rows back.
pub fn put_back(aside: &[BlockRow], rows: &mut Vec<u32>)
    ensures { ArePutBack aside.now rows.old.items rows.new.items }
{
    for name in aside {
        keep(rows, name.block, name.row);
    }
}
