//! A row by its name: the number of its block and its own number in it, both from 1.

ghost use Rattle.std.specs.Prelude.{◌≡◌, ◌<◌, ◌≤◌, IfOk, IfSome, MatchOption, None, Some};
ghost use Rattle.block_choices.specs.Choices.{IsThere};
ghost use Rattle.block_lists.specs.declared.limits.TheConstants.{MOST_GROUP_ROWS};
ghost use Rattle.cnf_form.specs.Lines.{token_of};
ghost use Rattle.group_text.specs.Names.{after_colon, before_colon, numbers_of, row_at, row_of};

use crate::Fault;
use crate::limits::MOST_NAMES;
use block_choices::BlockRow;
use block_lists::MOST_GROUP_ROWS;
use cnf_form::scan::read_unsigned;

/// The bytes before the first colon, and those behind it.
fn at_colon(token: &[u8]) -> Option<(&[u8], &[u8])>
    ensures { MatchOption result (after_colon token.now ≡ None) (λ p. (p.0.now ≡ before_colon token.now) × (after_colon token.now ≡ Some p.1.now)) }
{
    for (at, byte) in token.iter().enumerate() {
        if *byte == b':' {
            return Some((&token[..at], &token[at + 1..]));
        }
    }
    None
}

/// The numbers of a block and a row that a token tells.
fn read_numbers(token: &[u8]) -> Option<(u64, u64)>
    requires { token_of token.now ≡ token.now }
    ensures numbers { result ≡ numbers_of token.now }
    ensures small { IfSome result (λ p. (p.0 ≤ MOST_GROUP_ROWS) × (p.1 ≤ MOST_GROUP_ROWS)) }
{
    let (front, rest) = at_colon(token)?;
    let block = read_unsigned(front, MOST_GROUP_ROWS as u64)?;
    let row = read_unsigned(rest, MOST_GROUP_ROWS as u64)?;
    Some((block, row))
}

/// The row of blocks of these sizes that has these numbers.
fn find_row(sizes: &[u32], block: u64, row: u64) -> Result<BlockRow, Fault>
    requires { (block ≤ MOST_GROUP_ROWS) × (row ≤ MOST_GROUP_ROWS) }
    ensures row { result ≡ row_at sizes.now block row }
    ensures there { IfOk result (IsThere sizes.now) }
{
    if block == 0 || row == 0 || block as usize > sizes.len() {
        return Err(Fault::UnknownRow);
    }
    let at = (block - 1) as usize;
    if row > sizes[at] as u64 {
        return Err(Fault::UnknownRow);
    }
    Ok(BlockRow {
        block: at as u32,
        row: (row - 1) as u32,
    })
}

/// The row that a token names, where so many rows are named before.
pub fn read_row(sizes: &[u32], named: usize, token: &[u8]) -> Result<BlockRow, Fault>
    requires { token_of token.now ≡ token.now }
    ensures row { result ≡ row_of sizes.now named token.now }
    ensures there { IfOk result (IsThere sizes.now) }
    ensures room { IfOk result (λ _. named < MOST_NAMES) }
{
    let Some((block, row)) = read_numbers(token) else {
        return Err(Fault::BadRow);
    };
    if named >= MOST_NAMES {
        return Err(Fault::ManyNames);
    }
    find_row(sizes, block, row)
}
