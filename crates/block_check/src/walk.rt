//! Blocks that have to be a tree, gone over once: a recursion over an order of atoms, three frames deep for each of them.

ghost use Rattle.std.specs.Prelude.{◌≤◌, ◌∷◌, [], IfOk, IfErr, length, take};
ghost use Rattle.plan_rows.specs.Over.{query_of, rows_before};
ghost use Rattle.block_tree.specs.Trees.{AllAlike, FitEach};
ghost use Rattle.block_tree.specs.Judging.{dues_below};
ghost use Rattle.block_check.specs.Walking.{HasMarks, rest_query, due_at, due_of, WalksOn, Breaks};

use crate::marking::Mark;
use crate::standing::node_fault;
use block_tree::{BlockCause, Node};
use cqa_value::Row;
use plan_rows::{Rest, Step, Taken};

/// The place of the first block that can't stand where it does, or that behind the last block, and why.
#[derive(Clone, Copy)]
pub struct Fault {
    pub at: usize,
    pub cause: BlockCause,
}

/// Goes over the blocks of a tree for the rest of an order, from a place on; gives the place behind it.
#[cycle(tree)]
pub fn tree<'x>(
    rest: &Rest<'x>,
    row: &'x Row,
    nodes: &'x [Node],
    marks: &'x [Mark],
    at: usize,
) -> Result<usize, Fault>
    requires within { at ≤ length nodes.now }
    requires marks { HasMarks (rest_query rest.now) nodes.now (length nodes.now) marks.now }
    requires alike { AllAlike (rest_query rest.now) (take at nodes.now) }
    ensures on { IfOk result (λ on. WalksOn (rest_query rest.now) row.now nodes.now (due_at rest.now) at [] on) }
    ensures fault { IfErr result (λ f. Breaks (rest_query rest.now) row.now nodes.now (due_at rest.now) at f) }
{
    let plan = rest.plan;
    match plan {
        [] => Ok(at),
        [atom, others @ ..] => {
            let step = Step {
                course: rest.course,
                taken: rest.taken,
                atom: *atom,
                rest: others,
            };
            one(&step, row, nodes, marks, at)
        }
    }
}

/// The same of a tree whose first block is of the step's atom.
#[cycle(tree)]
fn one<'x>(
    step: &Step<'x, '_>,
    row: &'x Row,
    nodes: &'x [Node],
    marks: &'x [Mark],
    at: usize,
) -> Result<usize, Fault>
    requires within { at ≤ length nodes.now }
    requires marks { HasMarks (query_of step.now) nodes.now (length nodes.now) marks.now }
    requires alike { AllAlike (query_of step.now) (take at nodes.now) }
    ensures on { IfOk result (λ on. WalksOn (query_of step.now) row.now nodes.now (due_of step.now ∷ []) at [] on) }
    ensures fault { IfErr result (λ f. Breaks (query_of step.now) row.now nodes.now (due_of step.now ∷ []) at f) }
{
    if at == nodes.len() {
        return Err(Fault {
            at,
            cause: BlockCause::Missing,
        });
    }
    if let Some(cause) = node_fault(step, row, nodes, marks, at) {
        return Err(Fault { at, cause });
    }
    under(step, row, nodes[at].rows.as_slice(), nodes, marks, at + 1)
}

/// The same of the trees under the rows of a block.
#[cycle(tree)]
fn under<'x>(
    step: &Step<'x, '_>,
    row: &'x Row,
    rows: &'x [Row],
    nodes: &'x [Node],
    marks: &'x [Mark],
    at: usize,
) -> Result<usize, Fault>
    requires within { at ≤ length nodes.now }
    requires marks { HasMarks (query_of step.now) nodes.now (length nodes.now) marks.now }
    requires alike { AllAlike (query_of step.now) (take at nodes.now) }
    requires fit { FitEach (query_of step.now) row.now (rows_before step.now) step.now.atom rows.now }
    ensures on { IfOk result (λ on. WalksOn (query_of step.now) row.now nodes.now (dues_below (due_of step.now) rows.now) at [] on) }
    ensures fault { IfErr result (λ f. Breaks (query_of step.now) row.now nodes.now (dues_below (due_of step.now) rows.now) at f) }
{
    let mut on = at;
    for x in rows {
        let more = Taken::Before(step.atom, &*x, &*step.taken);
        let rest = Rest {
            course: &*step.course,
            taken: &more,
            plan: &*step.rest,
        };
        on = tree(&rest, &*row, nodes, marks, on)?;
    }
    Ok(on)
}
