//! The rows of a list.

ghost use Rattle.std.specs.Prelude.{◌≡◌, ◌+◌, ◌≤◌, [], Err, IfOk, MatchResult, Ok, length};
ghost use Rattle.cnf_form.specs.Lines.{line_of, tokens};
ghost use Rattle.group_text.specs.Names.{AreNamed, rows_after};
ghost use Rattle.group_text.specs.Weights.{before_weight, from_weight};

use crate::Fault;
use crate::limits::MOST_NAMES;
use crate::naming::read_row;
use crate::reading::is_word;
use block_choices::BlockRow;
use cnf_form::scan::next_token;
use cqa_value::NoMemory;

/// Reads the rows that the tokens of a line name, where so many rows are named before, and gives what stands behind them: nothing,
/// or what begins with `=` where lists may have weights. Else the first fault.
pub fn read_rows<'a>(
    may: bool,
    sizes: &[u32],
    named: usize,
    line: &'a [u8],
    rows: &mut Vec<BlockRow>,
) -> Result<Result<&'a [u8], Fault>, NoMemory>
    requires { named ≤ MOST_NAMES }
    ensures { IfOk result (λ read. MatchResult read
        (λ rest. (rows_after sizes.now named [] (before_weight may (tokens (line_of line.now))) ≡ Ok rows.new.items)
        × (from_weight may (tokens (line_of line.now)) ≡ tokens (line_of rest.now)) × AreNamed sizes.now named rows.new.items)
        (λ fault. rows_after sizes.now named [] (before_weight may (tokens (line_of line.now))) ≡ Err fault)) }
{
    rows.clear();
    let mut text = line;
    loop {
        let (token, rest) = next_token(text);
        if token.is_empty() || (may && is_word(token, b'=')) {
            return Ok(Ok(text));
        }
        match read_row(sizes, named + rows.len(), token) {
            Err(fault) => return Ok(Err(fault)),
            Ok(row) => rows.push(row)?,
        }
        text = rest;
    }
}
