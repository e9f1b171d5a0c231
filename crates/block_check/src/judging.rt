//! What is said of the blocks of a certificate.

ghost use Rattle.std.specs.Prelude.{◌≡◌, ◌+◌, ◌<◌, ◌^◌, [], IfOk, length};
ghost use Rattle.plan_rows.specs.Left.{AreQueryAtoms};
ghost use Rattle.plan_rows.specs.Taking.{placed};
ghost use Rattle.block_tree.specs.Judging.{Judged};
ghost use Rattle.block_check.specs.Walking.{HasMarks, rest_query};

use crate::marking::{Mark, marks};
use crate::walk::tree;
use block_tree::{BlockCause, Node, RewriteCheck};
use cqa_value::{NoMemory, Row};
use plan_rows::{Course, JoinedColumns, Rest, Setting, Taken};
use std::alloc::Global;
use table_blocks::Bound;

/// What is said of blocks, by their marks, where the tree of an order is due.
fn judge<'x>(rest: &Rest<'x>, row: &'x Row, nodes: &'x [Node], marks: &'x [Mark]) -> RewriteCheck
    requires few { length nodes.now + 1 < 2 ^ 32 }
    requires free { placed rest.now.taken.now ≡ [] }
    requires marks { HasMarks (rest_query rest.now) nodes.now (length nodes.now) marks.now }
    ensures { Judged (rest_query rest.now) row.now rest.now.plan.now nodes.now result }
{
    match tree(rest, row, nodes, marks, 0) {
        Ok(on) if on == nodes.len() => RewriteCheck::Verified,
        Ok(on) => RewriteCheck::BadBlock {
            number: on as u32 + 1,
            cause: BlockCause::Surplus,
        },
        Err(fault) => RewriteCheck::BadBlock {
            number: fault.at as u32 + 1,
            cause: fault.cause,
        },
    }
}

/// The same of the rest of an order of which nothing was taken.
fn judge_along<'x>(
    alloc: Global,
    setting: Setting<'x, 'x>,
    order: &'x [u32],
    row: &'x Row,
    nodes: &'x [Node],
) -> Result<RewriteCheck, NoMemory>
    requires order { AreQueryAtoms setting.bound.now.query.now order.now }
    requires few { length nodes.now + 1 < 2 ^ 32 }
    ensures { IfOk result (Judged setting.entry.bound.now.query.now row.now order.now nodes.now) }
{
    let marks = marks(alloc, setting.bound.query, nodes)?;
    let course = Course {
        setting,
        order,
        shared: &[],
        ways: &[],
    };
    let none = Taken::Nothing;
    let rest = Rest {
        course: &course,
        taken: &none,
        plan: order,
    };
    Ok(judge(&rest, row, nodes, &marks))
}

/// What is said of blocks, in the order in which they stand, where the tree of an order of a query's atoms is due: `Verified`,
/// or `BadBlock` with the number, from 1, of the first block that can't stand where it does, and the first cause; where the
/// blocks end too early, `Missing` with the number behind the last. The rows of the database's tables aren't read.
pub fn judge_blocks<'x>(
    alloc: Global,
    bound: &'x Bound<'x>,
    order: &'x [u32],
    row: &'x Row,
    nodes: &'x [Node],
) -> Result<RewriteCheck, NoMemory>
    requires order { AreQueryAtoms bound.now.query.now order.now }
    requires few { length nodes.now + 1 < 2 ^ 32 }
    ensures { IfOk result (Judged bound.now.query.now row.now order.now nodes.now) }
{
    let setting = Setting {
        alloc,
        bound,
        paths: &[],
        joined: JoinedColumns::new(bound),
    };
    judge_along(alloc, setting, order, row, nodes)
}
