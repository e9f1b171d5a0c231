//! The check of steps that come one by one.

ghost use Rattle.std.specs.Prelude.{◌≡◌, ◌<◌, ◌≤◌, ◌+◌, ◌^◌, ◌-◌, ℕ, List, [], ◌∷◌, ◌++◌, OnOk, IfOk, length};
ghost use Rattle.cnf_form.specs.declared.log.Step.{Step as LogStep};
ghost use Rattle.cnf_form.specs.Literals.{literals};
ghost use Rattle.cnf_form.specs.Logs.{Live, numbered};
ghost use Rattle.lrat_check.specs.Marks.{AllOpen};
ghost use Rattle.lrat_check.specs.Store.{live_of};

use crate::marks::Marks;
use crate::steps::{saw_empty, take_step, top_of};
use crate::store::Store;
use crate::{LogCause, LogFault};
use cnf_form::{Clause, Step};
use cqa_value::NoMemory;
use std::alloc::Global;

/// What the steps so far have come to: how many passed, and the first that fails.
#[derive(Drop)]
pub struct Checker {
    pub store: Store,
    pub marks: Marks,
    /// The greatest id so far: that of the last clause added, at first that of the formula's last clause.
    pub top: u64,
    /// How many steps passed.
    pub passed: u64,
    /// Whether a step that passed added the empty clause.
    pub seen: bool,
    /// The first step that fails; none is taken after it.
    pub fault: Option<LogFault>,
    ghost clear: { AllOpen marks },
}

fn load(alloc: Global, clauses: &[Clause]) -> Result<Store, NoMemory>
    ensures { IfOk result (λ s. live_of s ≡ numbered (literals clauses.now)) }
{
    let mut store = Store::new(alloc);
    for (index, clause) in clauses.iter().enumerate() {
        store.add(index as u64 + 1, clause.lits.as_slice())?;
    }
    Ok(store)
}

impl Checker {
    ghost use Rattle.lrat_check.specs.Reached.{Reached};
    ghost use Rattle.lrat_check.specs.Checked.{RunIs};

    /// Before the first step.
    pub fn new(alloc: Global, clauses: &[Clause]) -> Result<Checker, NoMemory>
        ensures reached { IfOk result (λ c. Reached (numbered (literals clauses.now)) (length clauses.now) [] c) }
        ensures none { IfOk result (λ c. c.passed ≡ 0) }
    {
        Ok(Checker {
            store: load(alloc, clauses)?,
            marks: Marks::new(alloc),
            top: clauses.len() as u64,
            passed: 0,
            seen: false,
            fault: None,
        })
    }

    /// Takes a step. After a fault it changes nothing.
    pub fn take(&mut self, step: &Step) -> Result<(), NoMemory>
        requires { self.old.passed < 2 ^ 64 - 1 }
        ensures reached { OnOk result ((live : Live) (top : ℕ) (before : List LogStep) → Reached live top before self.old → Reached live top (before ++ step.now ∷ []) self.new) }
        ensures count { OnOk result (self.new.passed ≤ self.old.passed + 1) }
    {
        let None = self.fault else {
            return Ok(());
        };
        match take_step(&mut self.store, &mut self.marks, self.top, step)? {
            Some(cause) => {
                self.fault = Some(LogFault {
                    step: self.passed + 1,
                    cause,
                });
            }
            None => {
                self.passed += 1;
                self.top = top_of(self.top, step);
                self.seen = saw_empty(self.seen, step);
            }
        }
        Ok(())
    }

    /// The fault of the steps, if they are all there are; none where they refute the formula.
    pub fn end(&self) -> Option<LogFault>
        ensures { (live : Live) (top : ℕ) (steps : List LogStep) → Reached live top steps self.now → RunIs live top steps result }
    {
        match self.fault {
            Some(fault) => Some(fault),
            None => {
                if self.seen {
                    None
                } else {
                    Some(LogFault {
                        step: self.passed,
                        cause: LogCause::NoEmptyClause,
                    })
                }
            }
        }
    }
}
