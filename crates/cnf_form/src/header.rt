//! The header of a formula.

ghost use Rattle.std.specs.Prelude.{◌≡◌, MatchOption, None, Some, option_map};
ghost use Rattle.cnf_form.specs.Lines.{after_line, line_of, token_of, tokens};
ghost use Rattle.cnf_form.specs.Formulas.{header, header_by};
ghost use Rattle.cnf_form.specs.Reading.{FindIs};

use crate::scan::{is_lrat_line, is_skipped_line, next_token, read_unsigned, skip_line};

/// The greatest number of variables that a header may tell.
pub const MOST_VARIABLES: u64 = 10_000_000;
/// The greatest number of clauses that a header may tell.
pub const MOST_CLAUSES: u64 = u32::MAX as u64;

/// How many variables and clauses a formula has.
#[derive(Clone, Copy)]
pub struct Header {
    pub vars: u32,
    pub count: u32,
}

/// A header, the bytes after its line, and the number of the next line; or the first faulty line.
#[derive(Clone, Copy)]
pub enum Find<'a> {
    Found(Header, &'a [u8], u64),
    Bad(u64),
}

fn header_from(p: &[u8], cnf: &[u8], vars: &[u8], count: &[u8], rest: &[u8]) -> Option<Header>
    requires vars { token_of vars.now ≡ vars.now }
    requires count { token_of count.now ≡ count.now }
    ensures { option_map (λ h. (h.vars, h.count)) result ≡ header_by p.now cnf.now vars.now count.now rest.now }
{
    if !(p == b"p".as_slice() && cnf == b"cnf".as_slice() && rest.is_empty()) {
        return None;
    }
    let vars = read_unsigned(vars, MOST_VARIABLES)?;
    let count = read_unsigned(count, MOST_CLAUSES)?;
    Some(Header {
        vars: vars as u32,
        count: count as u32,
    })
}

/// The header that the first line is, and the bytes after the line.
fn read_header(text: &[u8]) -> Option<(Header, &[u8])>
    ensures { MatchOption result (header (tokens (line_of text.now)) ≡ None) (λ h. (header (tokens (line_of text.now)) ≡ Some (h.0.vars, h.0.count)) × (h.1.now ≡ after_line text.now)) }
{
    let (p, after) = next_token(text);
    let (cnf, after) = next_token(after);
    let (vars, after) = next_token(after);
    let (count, after) = next_token(after);
    let (rest, _) = next_token(after);
    let header = header_from(p, cnf, vars, count, rest)?;
    Some((header, skip_line(after)))
}

/// Finds the header of a formula.
pub fn find_header(text: &[u8]) -> Find<'_>
    ensures { FindIs text.now result }
{
    let mut rest = text;
    let mut number = 1u64;
    while !rest.is_empty() {
        if is_lrat_line(rest) {
            return Find::Bad(number);
        }
        if !is_skipped_line(rest) {
            return match read_header(rest) {
                Some((header, after)) => Find::Found(header, after, number + 1),
                None => Find::Bad(number),
            };
        }
        number += 1;
        rest = skip_line(rest);
    }
    Find::Bad(number)
}
