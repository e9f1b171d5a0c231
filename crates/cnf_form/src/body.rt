//! The clauses of a formula, line by line.

ghost use Rattle.std.specs.Prelude.{◌≡◌, ◌<◌, ◌^◌, ◌+◌, ℕ, length, IfOk, List, ◌∷◌, ◌++◌, MatchOption, true, false, Some, Err};
ghost use Rattle.cnf_form.specs.Lines.{after_line, line_of, tokens};
ghost use Rattle.cnf_form.specs.Numbers.{signed_of};
ghost use Rattle.cnf_form.specs.Formulas.{Token, content, tagged};
ghost use Rattle.cnf_form.specs.Reading.{Goes, ReadIs, outcome};

use crate::scan::{Next, Signed, is_comment_line, is_lrat_line, next_number, skip_line};
use crate::{Clause, Lit};
use cqa_value::{Items, NoMemory};
use std::alloc::Global;

/// What was read of the clauses: how many are to come, the literals of the next, and those before.
#[derive(Drop)]
pub struct Body {
    pub todo: u32,
    pub partial: Vec<Lit>,
    pub clauses: Vec<Clause>,
}

/// The bytes after the `lrat` line, or the first faulty line.
#[derive(Clone, Copy)]
pub enum Read<'a> {
    Done(&'a [u8]),
    Bad(u64),
}

/// Takes a number that a token writes, and answers false where it is one too many.
fn take_number(alloc: Global, body: &mut Body, number: Signed) -> Result<bool, NoMemory>
    requires { number.size < 2 ^ 32 }
    ensures { IfOk result (λ ok. (vars missing n : ℕ) (token : List ℕ) (later : List Token) → signed_of vars token ≡ Some (number.negative, number.size) → Goes (outcome vars missing body.old ((n, token) ∷ later)) n (outcome vars missing body.new later) ok) }
{
    if body.todo == 0 {
        return Ok(false);
    }
    if number.size == 0 {
        let lits = std::mem::replace(&mut body.partial, Vec::new(alloc));
        body.clauses.push(Clause {
            lits: Items::from_vec(lits),
        })?;
        body.todo -= 1;
        return Ok(true);
    }
    body.partial.push(Lit {
        var: number.size as u32,
        positive: !number.negative,
    })?;
    Ok(true)
}

/// Takes the numbers of a line, and answers with the bytes after it; `None` where it is faulty.
fn take_line<'a>(
    alloc: Global,
    vars: u32,
    body: &mut Body,
    text: &'a [u8],
) -> Result<Option<&'a [u8]>, NoMemory>
    ensures { IfOk result (λ r. MatchOption r
        ((missing n : ℕ) (later : List Token) → outcome vars missing body.old (tagged n (tokens (line_of text.now)) ++ later) ≡ Err n)
        (λ rest. (rest.now ≡ after_line text.now) × ((missing n : ℕ) (later : List Token) → outcome vars missing body.old (tagged n (tokens (line_of text.now)) ++ later) ≡ outcome vars missing body.new later))) }
{
    let mut rest = text;
    loop {
        match next_number(rest, vars as u64) {
            Next::End(after) => return Ok(Some(after)),
            Next::Number(number, after) => {
                if !take_number(alloc, body, number)? {
                    return Ok(None);
                }
                rest = after;
            }
            Next::Other => return Ok(None),
        }
    }
}

fn take_content<'a>(
    alloc: Global,
    vars: u32,
    body: &mut Body,
    text: &'a [u8],
) -> Result<Option<&'a [u8]>, NoMemory>
    ensures { IfOk result (λ r. MatchOption r
        ((missing n : ℕ) (later : List Token) → outcome vars missing body.old (content n (line_of text.now) ++ later) ≡ Err n)
        (λ rest. (rest.now ≡ after_line text.now) × ((missing n : ℕ) (later : List Token) → outcome vars missing body.old (content n (line_of text.now) ++ later) ≡ outcome vars missing body.new later))) }
{
    if is_comment_line(text) {
        Ok(Some(skip_line(text)))
    } else {
        take_line(alloc, vars, body, text)
    }
}

/// Reads clauses up to the `lrat` line; the first line has the number `first`.
pub fn read_body<'a>(
    alloc: Global,
    vars: u32,
    body: &mut Body,
    text: &'a [u8],
    first: u64,
) -> Result<Read<'a>, NoMemory>
    requires { first + length text.now < 2 ^ 64 }
    ensures { IfOk result (λ r. ReadIs vars body.old body.new first text.now r) }
{
    let mut rest = text;
    let mut number = first;
    while !rest.is_empty() {
        if is_lrat_line(rest) {
            if body.todo == 0 {
                return Ok(Read::Done(skip_line(rest)));
            }
            return Ok(Read::Bad(number));
        }
        let Some(after) = take_content(alloc, vars, body, rest)? else {
            return Ok(Read::Bad(number));
        };
        number += 1;
        rest = after;
    }
    Ok(Read::Bad(number))
}
