//! Which steps of a log the empty clause needs, marked from it backwards.

use crate::guess::parts::place_of;
use cnf_form::Step;
use cqa_value::NoMemory;
use std::alloc::Global;

/// Marks the steps whose clauses are hints, where so many clauses are before the first step.
fn mark_hints(marks: &mut [bool], clauses: usize, hints: &[i64]) {
    for hint in hints {
        let place = place_of(*hint);
        if place >= clauses
            && let Some(mark) = marks.get_mut(place - clauses)
        {
            *mark = true;
        }
    }
}

/// Marks what a step needs, where the step is needed or adds the empty clause.
fn mark_step(marks: &mut [bool], clauses: usize, at: usize, step: &Step) {
    let Step::Add { clause, hints, .. } = step else {
        return;
    };
    let Some(mark) = marks.get_mut(at) else {
        return;
    };
    *mark = *mark || clause.lits.is_empty();
    if *mark {
        mark_hints(marks, clauses, hints.as_slice());
    }
}

/// Of each step, whether the empty clause needs it, where so many clauses are before the first.
pub(crate) fn needed_of(
    alloc: Global,
    clauses: usize,
    steps: &[Step],
) -> Result<Vec<bool>, NoMemory> {
    let mut marks = vec![in alloc; false; steps.len()]?;
    for back in 0..steps.len() {
        let at = steps.len() - 1 - back;
        mark_step(&mut marks, clauses, at, &steps[at]);
    }
    Ok(marks)
}
