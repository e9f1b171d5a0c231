//! Reads logs.

ghost use Rattle.std.specs.Prelude.{◌≡◌, ◌≢◌, [], ◌<◌, ◌^◌, ◌++◌, IfOk, OnOk, MatchOption, None, Some, option_map};
ghost use Rattle.cqa_value.specs.declared.memory.Fail.TheVariants.{Refused};
ghost use Rattle.cnf_form.specs.declared.fault.Part.TheVariants as part;
ghost use Rattle.cnf_form.specs.Lines.{after_line, line_of, tokens};
ghost use Rattle.cnf_form.specs.Formulas.{literal};
ghost use Rattle.cnf_form.specs.Numbers.{without_sign};
ghost use Rattle.lrat_check.specs.LogTexts.{LogIs, add_step, addition_of, by_first, delete_step, hint_value, hints_of, ids_of, line_steps, said_steps, step_after};
ghost use Rattle.cnf_form.specs.declared.log.Log.{Log as LogValue};
ghost use Rattle.lrat_check.specs.Writing.{IsWritableLog, ReadsBack, log_bytes};
ghost use Rattle.lrat_check.specs.LogParts.{IdIsNext, NoIdNext};

use cnf_form::scan::{Next, Signed, is_comment_line, next_number, next_token, skip_line, unsigned};
use cnf_form::{Clause, FormatFault, Lit, Log, Part, Step};
use cqa_value::{Fail, Items, NoMemory};
use std::alloc::Global;

/// The greatest id, and the greatest size of a hint.
pub const GREATEST_ID: u64 = i64::MAX as u64;

fn lit_of(number: Signed) -> Lit
    requires { number.size < 2 ^ 32 }
    ensures { result ≡ literal (number.negative, number.size) }
{
    Lit {
        var: number.size as u32,
        positive: !number.negative,
    }
}

fn hint_of(number: Signed) -> i64
    requires some { 0 < number.size }
    requires small { number.size < 2 ^ 63 }
    ensures { result ≡ hint_value (number.negative, number.size) }
{
    if number.negative {
        -(number.size as i64)
    } else {
        number.size as i64
    }
}

/// What a step's literals and hints are gathered in. A step that is read takes it along, and may give it back for the next.
#[derive(Drop)]
pub struct Gathered {
    lits: Vec<Lit>,
    hints: Vec<i64>,
}

impl Gathered {
    /// Nothing gathered so far. It takes memory only where something is.
    pub fn new(alloc: Global) -> Gathered {
        Gathered {
            lits: Vec::new(alloc),
            hints: Vec::new(alloc),
        }
    }

    /// Takes the room of a step that is done with back for the next.
    pub fn take_back(&mut self, step: Step) {
        if let Step::Add { clause, hints, .. } = step {
            self.lits = clause.lits.into_vec();
            self.hints = hints.into_vec();
        }
    }
}

/// Gathers literals up to a zero, and gives the bytes after it.
fn read_lits<'a>(
    lits: &mut Vec<Lit>,
    text: &'a [u8],
    vars: u32,
) -> Result<Option<&'a [u8]>, NoMemory>
    ensures { IfOk result (λ r. MatchOption r
        (addition_of vars (tokens (line_of text.now)) ≡ None)
        (λ rest. (addition_of vars (tokens (line_of text.now)) ≡ option_map (λ hs. (lits.new.items, hs)) (hints_of (tokens (line_of rest.now)))) × (after_line text.now ≡ after_line rest.now))) }
{
    lits.clear();
    let mut rest = text;
    loop {
        match next_number(rest, vars as u64) {
            Next::Number(number, after) => {
                if number.size == 0 {
                    return Ok(Some(after));
                }
                lits.push(lit_of(number))?;
                rest = after;
            }
            _ => return Ok(None),
        }
    }
}

/// The bytes after a line that has no more tokens.
fn line_end(text: &[u8]) -> Option<&[u8]>
    ensures { MatchOption result (tokens (line_of text.now) ≢ []) (λ rest. (tokens (line_of text.now) ≡ []) × (rest.now ≡ after_line text.now)) }
{
    match next_number(text, 0) {
        Next::End(rest) => Some(rest),
        _ => None,
    }
}

/// Gathers hints up to a zero that ends the line, and gives the bytes after the line.
fn read_hints<'a>(hints: &mut Vec<i64>, text: &'a [u8]) -> Result<Option<&'a [u8]>, NoMemory>
    ensures { IfOk result (λ r. MatchOption r
        (hints_of (tokens (line_of text.now)) ≡ None)
        (λ rest. (hints_of (tokens (line_of text.now)) ≡ Some hints.new.items) × (rest.now ≡ after_line text.now))) }
{
    hints.clear();
    let mut rest = text;
    loop {
        match next_number(rest, GREATEST_ID) {
            Next::Number(number, after) => {
                if number.size == 0 {
                    return Ok(line_end(after));
                }
                hints.push(hint_of(number))?;
                rest = after;
            }
            _ => return Ok(None),
        }
    }
}

/// Reads ids up to a zero that ends the line, and gives the bytes after the line.
fn read_ids<'a>(alloc: Global, text: &'a [u8]) -> Result<Option<(Vec<u64>, &'a [u8])>, NoMemory>
    ensures { IfOk result (λ r. MatchOption r
        (ids_of (tokens (line_of text.now)) ≡ None)
        (λ p. (ids_of (tokens (line_of text.now)) ≡ Some p.0.items) × (p.1.now ≡ after_line text.now))) }
{
    let mut ids = Vec::new(alloc);
    let mut rest = text;
    loop {
        match next_id(rest) {
            None => return Ok(None),
            Some((id, after)) => {
                if id == 0 {
                    return match line_end(after) {
                        Some(end) => Ok(Some((ids, end))),
                        None => Ok(None),
                    };
                }
                ids.push(id)?;
                rest = after;
            }
        }
    }
}

/// The next id of a line, or a zero.
fn next_id(text: &[u8]) -> Option<(u64, &[u8])>
    ensures { MatchOption result (NoIdNext text.now) (λ n. IdIsNext text.now n.0 n.1.now) }
{
    match next_number(text, GREATEST_ID) {
        Next::Number(number, rest) => {
            let id = unsigned(number)?;
            Some((id, rest))
        }
        _ => None,
    }
}

/// Reads a deletion after its `d`.
fn read_deletion<'a>(alloc: Global, text: &'a [u8]) -> Result<Option<(Step, &'a [u8])>, NoMemory>
    ensures { IfOk result (λ r. MatchOption r
        (ids_of (tokens (line_of text.now)) ≡ None)
        (λ p. (option_map delete_step (ids_of (tokens (line_of text.now))) ≡ Some p.0) × (p.1.now ≡ after_line text.now))) }
{
    let Some((ids, rest)) = read_ids(alloc, text)? else {
        return Ok(None);
    };
    let step = Step::Delete {
        ids: Items::from_vec(ids),
    };
    Ok(Some((step, rest)))
}

/// Reads an addition after its id.
fn read_addition<'a>(
    alloc: Global,
    gathered: &mut Gathered,
    id: u64,
    text: &'a [u8],
    vars: u32,
) -> Result<Option<(Step, &'a [u8])>, NoMemory>
    ensures { IfOk result (λ r. MatchOption r
        (addition_of vars (tokens (line_of text.now)) ≡ None)
        (λ p. (option_map (add_step id) (addition_of vars (tokens (line_of text.now))) ≡ Some p.0) × (p.1.now ≡ after_line text.now))) }
{
    let Some(rest) = read_lits(&mut gathered.lits, text, vars)? else {
        return Ok(None);
    };
    let Some(rest) = read_hints(&mut gathered.hints, rest)? else {
        return Ok(None);
    };
    let lits = std::mem::replace(&mut gathered.lits, Vec::new(alloc));
    let hints = std::mem::replace(&mut gathered.hints, Vec::new(alloc));
    let step = Step::Add {
        id,
        clause: Clause {
            lits: Items::from_vec(lits),
        },
        hints: Items::from_vec(hints),
    };
    Ok(Some((step, rest)))
}

/// Reads a step after its first number.
fn read_step<'a>(
    alloc: Global,
    gathered: &mut Gathered,
    id: u64,
    text: &'a [u8],
    vars: u32,
) -> Result<Option<(Step, &'a [u8])>, NoMemory>
    ensures { IfOk result (λ r. MatchOption r
        (step_after vars id (tokens (line_of text.now)) ≡ None)
        (λ p. (step_after vars id (tokens (line_of text.now)) ≡ Some p.0) × (p.1.now ≡ after_line text.now))) }
{
    let (token, rest) = next_token(text);
    if token == b"d".as_slice() {
        read_deletion(alloc, rest)
    } else {
        read_addition(alloc, gathered, id, text, vars)
    }
}

/// Reads the step that begins with a number, and gives the bytes after its line; `None` where it breaks a rule.
fn read_numbered<'a>(
    alloc: Global,
    gathered: &mut Gathered,
    vars: u32,
    first: Signed,
    text: &'a [u8],
) -> Result<Option<(Step, &'a [u8])>, NoMemory>
    ensures { IfOk result (λ r. MatchOption r
        (by_first vars (without_sign first.negative first.size) (tokens (line_of text.now)) ≡ None)
        (λ p. (by_first vars (without_sign first.negative first.size) (tokens (line_of text.now)) ≡ Some p.0) × (p.1.now ≡ after_line text.now))) }
{
    let Some(id) = unsigned(first) else {
        return Ok(None);
    };
    if id == 0 {
        return Ok(None);
    }
    read_step(alloc, gathered, id, text, vars)
}

/// A line of a log: its step, none where the line is skipped, and the bytes after it.
#[derive(Drop)]
pub struct Line<'a> {
    pub step: Option<Step>,
    pub rest: &'a [u8],
}

/// Reads the first line; `None` where it breaks a rule.
pub fn read_line<'a>(
    alloc: Global,
    gathered: &mut Gathered,
    vars: u32,
    text: &'a [u8],
) -> Result<Option<Line<'a>>, NoMemory>
    ensures { IfOk result (λ r. MatchOption r
        (line_steps vars (line_of text.now) ≡ None)
        (λ line. (line_steps vars (line_of text.now) ≡ Some (said_steps line.step)) × (line.rest.now ≡ after_line text.now))) }
{
    if is_comment_line(text) {
        let rest = skip_line(text);
        return Ok(Some(Line { step: None, rest }));
    }
    match next_number(text, GREATEST_ID) {
        Next::End(rest) => Ok(Some(Line { step: None, rest })),
        Next::Number(first, rest) => match read_numbered(alloc, gathered, vars, first, rest)? {
            Some((step, rest)) => Ok(Some(Line {
                step: Some(step),
                rest,
            })),
            None => Ok(None),
        },
        Next::Other => Ok(None),
    }
}

/// Appends the step of a line, if it has one.
fn append(steps: &mut Vec<Step>, step: Option<Step>) -> Result<(), NoMemory>
    ensures { OnOk result (steps.new.items ≡ steps.old.items ++ said_steps step) }
{
    if let Some(step) = step {
        steps.push(step)?;
    }
    Ok(())
}

/// The fault of a line.
pub fn line_fault(line: u64) -> Fail<FormatFault>
    ensures { result ≡ Refused (record { line = line; part = part.Log }) }
{
    Fail::Refused(FormatFault {
        line,
        part: Part::Log,
    })
}

fn read_steps(alloc: Global, bytes: &[u8], vars: u32) -> Result<Log, Fail<FormatFault>>
    ensures { LogIs vars bytes.now result }
{
    let mut gathered = Gathered::new(alloc);
    let mut steps = Vec::new(alloc);
    let mut rest = bytes;
    let mut number = 1u64;
    while !rest.is_empty() {
        let Some(line) = read_line(alloc, &mut gathered, vars, rest)? else {
            return Err(line_fault(number));
        };
        append(&mut steps, line.step)?;
        number += 1;
        rest = line.rest;
    }
    Ok(Log {
        steps: Items::from_vec(steps),
    })
}

/// Reads a log, the text after the `lrat` line, over a formula of so many variables.
///
/// # Errors
///
/// `FormatFault` with the number of the first line that breaks a rule, from 1; `NoMemory` where memory is refused.
pub fn read_log(alloc: Global, bytes: &[u8], vars: u32) -> Result<Log, Fail<FormatFault>>
    // The answer is what the lines say, or the first that breaks a rule.
    ensures exact { LogIs vars bytes.now result }
    // What is written of a log of additions is read as the same log.
    ensures reads_written { (log : LogValue) → IsWritableLog vars log.steps → bytes.now ≡ log_bytes log.steps → ReadsBack log result }
{
    read_steps(alloc, bytes, vars)
}
