//! A list and its weight.

ghost use Rattle.std.specs.Prelude.{◌≡◌, ◌≤◌, Err, IfOk, MatchResult, Ok};
ghost use Rattle.cnf_form.specs.Lines.{line_of, tokens};
ghost use Rattle.group_text.specs.Groups.{told_list};
ghost use Rattle.group_text.specs.Names.{AreNamed};
ghost use Rattle.group_text.specs.Weights.{before_weight, from_weight, weighs, weight_of};

use crate::limits::MOST_NAMES;
use crate::rows::read_rows;
use crate::wanted::weighs;
use crate::{Fault, Wanted};
use block_choices::BlockRow;
use cnf_form::scan::next_token;
use cqa_value::{NoMemory, read_int};

/// The weight that the tokens of a text tell: `=` and an integer of 64 bits; where there are none it is 1.
fn read_weight(text: &[u8]) -> Result<i64, Fault>
    ensures { result ≡ weight_of (tokens (line_of text.now)) }
{
    let (sign, behind) = next_token(text);
    if sign.is_empty() {
        return Ok(1);
    }
    let (digits, rest) = next_token(behind);
    if digits.is_empty() || !next_token(rest).0.is_empty() {
        return Err(Fault::BadWeight);
    }
    match read_int(digits) {
        Some(weight) => Ok(weight),
        None => Err(Fault::BadWeight),
    }
}

/// The weight of the list that the tokens of a line tell, whose rows are left in `rows`, where so many rows are named before; or
/// the first fault.
///
/// # Errors
///
/// `NoMemory` where memory is refused.
pub fn read_list(
    wanted: Wanted,
    sizes: &[u32],
    named: usize,
    line: &[u8],
    rows: &mut Vec<BlockRow>,
) -> Result<Result<i64, Fault>, NoMemory>
    requires { named ≤ MOST_NAMES }
    ensures { IfOk result (λ read. MatchResult read
        (λ weight. (told_list sizes.now named (before_weight (weighs wanted) (tokens (line_of line.now))) (from_weight (weighs wanted) (tokens (line_of line.now))) ≡ Ok (record { weight = weight; names = rows.new.items })) × AreNamed sizes.now named rows.new.items)
        (λ fault. told_list sizes.now named (before_weight (weighs wanted) (tokens (line_of line.now))) (from_weight (weighs wanted) (tokens (line_of line.now))) ≡ Err fault)) }
{
    match read_rows(weighs(wanted), sizes, named, line, rows)? {
        Err(fault) => Ok(Err(fault)),
        Ok(rest) => Ok(read_weight(rest)),
    }
}
