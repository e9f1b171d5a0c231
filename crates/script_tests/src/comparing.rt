//! Outputs, line by line.

ghost use Rattle.std.specs.Prelude.{◌≡◌, ◌↔◌, IsNone};

use crate::running::{Case, run};
use std::io;

/// The number of the line in which two outputs differ first, from 1; where one is the beginning of the other, that of the
/// line in which it ends.
fn first_line(wanted: &[u8], given: &[u8]) -> u64 {
    let mut line = 1u64;
    for (left, right) in wanted.iter().zip(given) {
        if left != right {
            return line;
        }
        if *left == b'\n' {
            line = line.saturating_add(1);
        }
    }
    line
}

/// The number of the first line in which two outputs differ, from 1. `None` where they are the same.
pub fn first_difference(wanted: &[u8], given: &[u8]) -> Option<u64>
    ensures { IsNone result ↔ (wanted.now ≡ given.now) }
{
    if wanted == given {
        return None;
    }
    Some(first_line(wanted, given))
}

/// The status of a case's call, and the first line in which its output differs.
fn ending(rt: &HostRuntime, case: &Case<'_>) -> io::Result<(u8, Option<u64>)> {
    let end = run(rt.alloc(), case)?;
    let status = end.status;
    let difference = first_difference(case.output, end.sink.bytes());
    drop(end);
    Ok((status, difference))
}

/// Whether a call ends as its case says. A line says how it doesn't.
pub fn ends_as_wanted(rt: &HostRuntime, name: &str, case: &Case<'_>) -> io::Result<bool> {
    let (status, difference) = ending(rt, case)?;
    if let Some(line) = difference {
        println!(rt; "{name}: line {line} of its output differs")?;
        return Ok(false);
    }
    if status != case.status {
        println!(rt; "{name}: status {status}, and not {}", case.status)?;
    }
    Ok(status == case.status)
}
