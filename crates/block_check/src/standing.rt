//! Whether a block can stand where one is due.

ghost use Rattle.std.specs.Prelude.{◌≡◌, ◌<◌, ◌↔◌, IsTrue, MatchOption, length, take};
ghost use Rattle.plan_rows.specs.Over.{query_of, rows_before};
ghost use Rattle.block_tree.specs.Trees.{AllAlike, FitEach};
ghost use Rattle.block_tree.specs.Judging.{CanStand, FailsBy};
ghost use Rattle.block_check.specs.Firsts.{nth_node};
ghost use Rattle.block_check.specs.Walking.{HasMarks, due_of};

use crate::marking::Mark;
use block_tree::{BlockCause, Node};
use cqa_value::Row;
use plan_rows::{Step, fits};

/// Whether each of these rows fits the rows taken and a candidate.
fn fit_each(step: &Step<'_, '_>, row: &Row, rows: &[Row]) -> bool
    ensures { IsTrue result ↔ FitEach (query_of step.now) row.now (rows_before step.now) step.now.atom rows.now }
{
    let look = step.look();
    rows.iter().all(|x| fits(&look, row, x))
}

/// Whether blocks list the same rows in the same order.
fn list_same(a: &Node, b: &Node) -> bool
    ensures { IsTrue result ↔ (a.now.rows ≡ b.now.rows) }
{
    a.rows.as_slice() == b.rows.as_slice()
}

/// Why the block at a place can't stand where one of the step's atom is due; `None` where it can.
pub fn node_fault(
    step: &Step<'_, '_>,
    row: &Row,
    nodes: &[Node],
    marks: &[Mark],
    at: usize,
) -> Option<BlockCause>
    requires there { at < length nodes.now }
    requires marks { HasMarks (query_of step.now) nodes.now (length nodes.now) marks.now }
    requires alike { AllAlike (query_of step.now) (take at nodes.now) }
    ensures { MatchOption result (CanStand (query_of step.now) row.now (take at nodes.now) (due_of step.now) (nth_node nodes.now at)) (λ cause. FailsBy (query_of step.now) row.now (take at nodes.now) (due_of step.now) (nth_node nodes.now at) cause) }
{
    let node = &nodes[at];
    let mark = marks[at];
    if node.atom != step.atom {
        return Some(BlockCause::WrongTable);
    }
    if !mark.is_block {
        return Some(BlockCause::NotABlock);
    }
    if !list_same(&nodes[mark.first], node) {
        return Some(BlockCause::OtherRows);
    }
    if !fit_each(step, row, node.rows.as_slice()) {
        return Some(BlockCause::NotFitting);
    }
    None
}
