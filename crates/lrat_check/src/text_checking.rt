//! The check of a log while its text is read.

ghost use Rattle.std.specs.Prelude.{◌≡◌, ◌⊎◌, ◌<◌, ◌≤◌, ◌+◌, ◌-◌, ◌^◌, [], ◌++◌, ℕ, List, IfOk, IsErrAnd, MatchOption, MatchResult, None, Some, Ok, Err};
ghost use Rattle.cnf_form.specs.declared.log.Step.{Step as LogStep};
ghost use Rattle.cnf_form.specs.Lines.{after_line, line_of, lines};
ghost use Rattle.cnf_form.specs.Logs.{Live, Refutes};
ghost use Rattle.lrat_check.specs.LogTexts.{line_steps, log_of};
ghost use Rattle.lrat_check.specs.Reached.{Reached};
ghost use Rattle.cnf_form.specs.declared.fault.Part.TheVariants as part;
ghost use Rattle.lrat_check.specs.declared.fault.LogFault.{LogFault as FaultValue};
ghost use Rattle.lrat_check.specs.Checked.{TextChecked};
ghost use Rattle.lrat_check.specs.Failing.{Refused};
ghost use Rattle.cnf_form.specs.Writing.{IsWritable};
ghost use Rattle.lrat_check.specs.Writing.{IsWritableLog, log_bytes};

use crate::LogFault;
use crate::checker::Checker;
use crate::reading::{Gathered, Line, line_fault, read_line};
use cnf_form::{Cnf, FormatFault};
use cqa_value::{Fail, NoMemory};
use std::alloc::Global;

/// Takes the step that the first line is, or none where it is skipped, and gives the bytes after the line; `None` where it
/// breaks a rule.
fn take_line<'a>(
    alloc: Global,
    gathered: &mut Gathered,
    checker: &mut Checker,
    vars: u32,
    text: &'a [u8],
) -> Result<Option<&'a [u8]>, NoMemory>
    requires { checker.old.passed < 2 ^ 64 - 1 }
    ensures { IfOk result (λ r. MatchOption r
        (line_steps vars (line_of text.now) ≡ None)
        (λ rest. (rest.now ≡ after_line text.now) × (checker.new.passed ≤ checker.old.passed + 1)
        × ((said : List LogStep) × (line_steps vars (line_of text.now) ≡ Some said)
        × ((live : Live) (top : ℕ) (before : List LogStep) → Reached live top before checker.old → Reached live top (before ++ said) checker.new)))) }
{
    let Some(Line { step, rest }) = read_line(alloc, gathered, vars, text)? else {
        return Ok(None);
    };
    match step {
        None => Ok(Some(rest)),
        Some(step) => {
            let taken = checker.take(&step);
            gathered.take_back(step);
            taken?;
            Ok(Some(rest))
        }
    }
}

/// Takes the steps of all lines, and gives the number of the first that breaks a rule.
fn take_lines(
    alloc: Global,
    checker: &mut Checker,
    vars: u32,
    text: &[u8],
) -> Result<Option<u64>, NoMemory>
    requires { checker.old.passed ≡ 0 }
    ensures { IfOk result (λ r. MatchOption r
        ((said : List LogStep) × (log_of vars 1 (lines text.now) ≡ Ok said)
        × ((live : Live) (top : ℕ) → Reached live top [] checker.old → Reached live top said checker.new))
        (λ line. log_of vars 1 (lines text.now) ≡ Err line)) }
{
    let mut gathered = Gathered::new(alloc);
    let mut rest = text;
    let mut number = 1u64;
    while !rest.is_empty() {
        let Some(after) = take_line(alloc, &mut gathered, checker, vars, rest)? else {
            return Ok(Some(number));
        };
        number += 1;
        rest = after;
    }
    Ok(None)
}

fn check_lines(alloc: Global, cnf: &Cnf, text: &[u8]) -> Result<Option<LogFault>, Fail<FormatFault>>
    ensures { TextChecked cnf.now (log_of cnf.now.vars 1 (lines text.now)) result }
{
    let mut checker = Checker::new(alloc, cnf.clauses.as_slice())?;
    let taken = take_lines(alloc, &mut checker, cnf.vars, text);
    let end = checker.end();
    drop(checker);
    match taken? {
        None => Ok(end),
        Some(line) => Err(line_fault(line)),
    }
}

/// Reads a log, the text after the `lrat` line, and checks each step as it is read, so that none is kept. The answer is the
/// fault of the log, and none where it refutes the formula.
///
/// # Errors
///
/// `FormatFault` with the number of the first line that breaks a rule, from 1. It comes before any fault of a step.
/// `NoMemory` where memory is refused.
pub fn check_text(
    alloc: Global,
    cnf: &Cnf,
    text: &[u8],
) -> Result<Option<LogFault>, Fail<FormatFault>>
    // No fault comes for refutations alone, and a fault for texts that have it.
    ensures exact { TextChecked cnf.now (log_of cnf.now.vars 1 (lines text.now)) result }
    // Each text gets its answer, unless memory is refused: none where it is a refutation, else its fault or its faulty line.
    ensures only_yes { (steps : List LogStep) → log_of cnf.now.vars 1 (lines text.now) ≡ Ok steps → Refutes cnf.now steps → MatchResult result (λ f. f ≡ None) (λ e. e ≡ Fail.NoMemory) }
    ensures only_fault { (steps : List LogStep) (fault : FaultValue) → log_of cnf.now.vars 1 (lines text.now) ≡ Ok steps → Refused cnf.now steps fault → MatchResult result (λ f. f ≡ Some fault) (λ e. e ≡ Fail.NoMemory) }
    ensures only_line { (line : ℕ) → log_of cnf.now.vars 1 (lines text.now) ≡ Err line → IsErrAnd result (λ e. (e ≡ Fail.Refused (record { line = line; part = part.Log })) ⊎ (e ≡ Fail.NoMemory)) }
    // What `log_text` writes of a refutation of additions alone, all within the ranges of the formats, is found to be one.
    ensures written { (steps : List LogStep) → IsWritable cnf.now → IsWritableLog cnf.now.vars steps → text.now ≡ log_bytes steps → Refutes cnf.now steps → MatchResult result (λ f. f ≡ None) (λ e. e ≡ Fail.NoMemory) }
{
    check_lines(alloc, cnf, text)
}
