//! The sizes of a group's blocks.

ghost use Rattle.std.specs.Prelude.{◌≡◌, ◌<◌, ◌+◌, ◌≤◌, IfOk, MatchResult, Ok, Err};
ghost use Rattle.block_lists.specs.declared.limits.TheConstants.{MOST_GROUP_ROWS};
ghost use Rattle.cnf_form.specs.Lines.{line_of, token_of, tokens};
ghost use Rattle.group_text.specs.Sizes.{AreSizes, size_of, sizes_of};

use crate::Fault;
use block_lists::MOST_GROUP_ROWS;
use cnf_form::scan::{next_token, read_unsigned};
use cqa_value::NoMemory;

/// The most rows of a group's blocks, as a number of 64 bits.
const MOST: u64 = MOST_GROUP_ROWS as u64;

/// The size that a token tells behind blocks of so many rows.
fn read_size(rows: u64, token: &[u8]) -> Result<u32, Fault>
    requires whole { token_of token.now ≡ token.now }
    requires fits { rows ≤ MOST_GROUP_ROWS }
    ensures size { result ≡ size_of rows token.now }
    ensures within { IfOk result (λ s. (0 < s) × (rows + s ≤ MOST_GROUP_ROWS)) }
{
    let Some(size) = read_unsigned(token, MOST) else {
        return Err(Fault::BadSize);
    };
    if size == 0 {
        return Err(Fault::BadSize);
    }
    if rows + size > MOST {
        return Err(Fault::ManyRows);
    }
    Ok(size as u32)
}

/// The sizes that the tokens of a line tell, or the first fault.
pub fn read_sizes(line: &[u8], sizes: &mut Vec<u32>) -> Result<Result<(), Fault>, NoMemory>
    ensures { IfOk result (λ read. MatchResult read
        (λ _. (sizes_of (tokens (line_of line.now)) ≡ Ok sizes.new.items) × AreSizes sizes.new.items)
        (λ fault. sizes_of (tokens (line_of line.now)) ≡ Err fault)) }
{
    sizes.clear();
    let mut rows = 0;
    let mut text = line;
    loop {
        let (token, rest) = next_token(text);
        if token.is_empty() {
            return Ok(Ok(()));
        }
        match read_size(rows, token) {
            Err(fault) => return Ok(Err(fault)),
            Ok(size) => {
                sizes.push(size)?;
                rows += size as u64;
            }
        }
        text = rest;
    }
}
