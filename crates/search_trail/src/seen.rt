//! The marks of the variables that an analysis has seen; they are clear between analyses.

ghost use Rattle.std.specs.Prelude.{◌≡◌, ◌≢◌, ℕ, length, IfOk};
ghost use Rattle.search_trail.specs.Marks.{IsVarSeen, AllClear, AllMet};

use cqa_value::NoMemory;
use std::alloc::Global;
use std::marker::Model;
use std::mem;

/// Marks that are taken out for each analysis, so that none costs the time or the memory to make them.
#[derive(Drop)]
pub struct SeenBuffer {
    marks: Vec<bool>,
}

impl Model for SeenBuffer {
    ghost use Rattle.std.specs.Prelude.{List, Bool};
    ghost use Rattle.search_trail.specs.Marks.{AllClear};

    ghost Value = { List Bool };

    ghost view = { λ s. s.marks.items };

    ghost invariant = { λ s. AllClear s.marks.items };
}

/// Clear marks for so many variables.
pub(crate) fn all_clear(alloc: Global, len: usize) -> Result<Vec<bool>, NoMemory>
    ensures clear { IfOk result (λ v. AllClear v.items) }
    ensures len { IfOk result (λ v. length v.items ≡ len) }
{
    Ok(vec![in alloc; false; len]?)
}

/// Clears the mark of a variable.
fn clear_mark(seen: &mut Vec<bool>, var: u32)
    ensures { (v : ℕ) → IsVarSeen seen.new.items v → IsVarSeen seen.old.items v × (v ≢ var) }
{
    if (var as usize) < seen.len() {
        seen[var as usize] = false;
    }
}

/// Clears the marks of the variables.
fn clear_marks(seen: &mut Vec<bool>, met: &[u32])
    requires { AllMet seen.old.items met.now }
    ensures { AllClear seen.new.items }
{
    for var in met {
        clear_mark(seen, *var);
    }
}

impl SeenBuffer {
    /// A buffer without marks. It takes memory only where marks are taken out.
    pub fn new(alloc: Global) -> SeenBuffer {
        SeenBuffer {
            marks: Vec::new(alloc),
        }
    }

    /// Takes out the marks of so many variables, all clear.
    pub fn take(&mut self, alloc: Global, len: usize) -> Result<Vec<bool>, NoMemory>
        ensures clear { IfOk result (λ v. AllClear v.items) }
        ensures len { IfOk result (λ v. length v.items ≡ len) }
    {
        let marks = mem::replace(&mut self.marks, Vec::new(alloc));
        if marks.len() == len {
            return Ok(marks);
        }
        all_clear(alloc, len)
    }

    /// Puts back what was taken out, cleared of the marks of the variables that have them.
    pub fn put_back(&mut self, marks: Vec<bool>, met: &[u32])
        requires { AllMet marks.items met.now }
    {
        let mut marks = marks;
        clear_marks(&mut marks, met);
        self.marks = marks;
    }
}
