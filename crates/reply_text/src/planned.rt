//! Appends the steps of a plan.

ghost use Rattle.std.specs.Prelude.{◌≡◌, ◌<◌, ◌^◌, ◌++◌, OnOk};
ghost use Rattle.reply_text.specs.Texts.{step_start, step_text, steps_text};

use crate::append::{append_named, append_number, append_words};
use cqa_value::{Name, NoMemory};

/// Appends a step for each table, numbered from 1, each on a line of its own.
pub fn append_steps(names: &[Name], out: &mut Vec<u8>) -> Result<(), NoMemory>
    ensures { OnOk result (out.new.items ≡ out.old.items ++ steps_text names.now) }
{
    for (before, name) in names.iter().enumerate() {
        append_step(before, name, out)?;
    }
    Ok(())
}

/// Appends a step, with so many before it.
fn append_step(before: usize, name: &Name, out: &mut Vec<u8>) -> Result<(), NoMemory>
    requires { before < 2 ^ 63 }
    ensures { OnOk result (out.new.items ≡ out.old.items ++ step_text before name.now) }
{
    append_words(step_words(before), out)?;
    append_number(before + 1, out)?;
    append_named(" ", name, out)
}

/// What stands before a step's number: the first step begins its text, any other a line.
fn step_words(before: usize) -> &'static str
    ensures { result.now ≡ step_start before }
{
    if before == 0 { "step " } else { "\nstep " }
}
