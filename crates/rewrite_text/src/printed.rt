//! The certificate of a row that is certain by a plan.

ghost use Rattle.std.specs.Prelude.{◌≡◌, IfErr, IfOk, List, [], None, OnOk, length};
ghost use Rattle.cqa_value.specs.Valid.{IsValidRow};
ghost use Rattle.cqa_model.specs.Database.{stored};
ghost use Rattle.cqa_model.specs.Valid.{AreValid};
ghost use Rattle.query_resolve.specs.Checks.{answer_fault};
ghost use Rattle.cqa_model.specs.Plan.{HoldsOver, IsPlanOf};
ghost use Rattle.block_tree.specs.declared.node.Node.{Node};
ghost use Rattle.block_tree.specs.Trees.{HasListedBlocks, PassesFor};
ghost use Rattle.join_access.specs.Spots.{ArePaths};
ghost use Rattle.plan_rows.specs.Left.{AreQueryAtoms};
ghost use Rattle.plan_rows.specs.Links.{AreWays};
ghost use Rattle.rewrite_text.specs.Certificates.{HasLongCertificate, IsCertificate};
ghost use Rattle.rewrite_text.specs.Drafts.{AddsStatements, IsBetween, IsTooLongBehind, RefusesBy};
ghost use Rattle.rewrite_text.specs.Growing.{AddsTree, IsLongTree};
ghost use Rattle.rewrite_text.specs.Made.{IsMade};
ghost use Rattle.rewrite_text.specs.Printed.{HasValidLiterals, IsVerified};
ghost use Rattle.rewrite_text.specs.Texts.{certificate_head, first_line};

use crate::draft::{Draft, TooLong};
use crate::statements::{add_creates, add_order, add_prove};
use crate::tree::add_nodes;
use cqa_model::Plan;
use cqa_value::{Fail, Items, Row};
use fo_plan::{paths_of, ways_of};
use join_access::RowIndex;
use plan_rows::{
    Candidates, Course, JoinedColumns, Link, Memo, Rest, Setting, Taken, shared_or_none,
};
use std::alloc::Global;
use table_blocks::Bound;

/// Adds the statements before the blocks.
fn add_head(
    bound: &Bound<'_>,
    plan: &[u32],
    row: &Row,
    draft: &mut Draft,
) -> Result<(), Fail<TooLong>>
    requires { IsBetween draft.old }
    ensures ok { OnOk result (AddsStatements (certificate_head bound.now.db.now bound.now.query.now row.now plan.now) draft.old draft.new) }
    ensures over { IfErr result (RefusesBy (IsTooLongBehind (length draft.old.out.items) (certificate_head bound.now.db.now bound.now.query.now row.now plan.now))) }
{
    add_creates(bound.db, bound.query.atoms.as_slice(), draft)?;
    add_prove(bound, row, draft)?;
    add_order(bound, plan, draft)
}

/// Adds the blocks of the tree that a plan makes for a row.
fn add_blocks<'x>(
    course: &Course<'x, '_>,
    row: &Row,
    draft: &mut Draft,
) -> Result<(), Fail<TooLong>>
    requires holds { HoldsOver course.now.setting.bound.now.db.now course.now.setting.bound.now.query.now row.now course.now.order.now }
    requires between { IsBetween draft.old }
    ensures made { OnOk result (AddsTree course.now.setting.bound.now.db.now course.now.setting.bound.now.query.now row.now [] course.now.order.now draft.old draft.new) }
    ensures over { IfErr result (RefusesBy (IsLongTree course.now.setting.bound.now.db.now course.now.setting.bound.now.query.now row.now [] course.now.order.now (length draft.old.out.items))) }
{
    let none = Taken::Nothing;
    let rest = Rest {
        course: &*course,
        taken: &none,
        plan: course.order,
    };
    let mut memo = Memo::over(&course.setting, Candidates::One);
    let done = add_nodes(&rest, row, &mut memo, draft);
    drop(memo);
    done
}

/// Adds all statements.
fn add_all(course: &Course<'_, '_>, row: &Row, draft: &mut Draft) -> Result<(), Fail<TooLong>>
    requires holds { HoldsOver course.now.setting.bound.now.db.now course.now.setting.bound.now.query.now row.now course.now.order.now }
    requires line { draft.old.out.items ≡ first_line }
    requires between { IsBetween draft.old }
    ensures text { OnOk result (IsCertificate course.now.setting.bound.now.db.now course.now.setting.bound.now.query.now row.now course.now.order.now draft.new.out.items) }
    ensures over { IfErr result (RefusesBy (HasLongCertificate course.now.setting.bound.now.db.now course.now.setting.bound.now.query.now row.now course.now.order.now)) }
{
    add_head(course.setting.bound, course.order, row, draft)?;
    add_blocks(course, row, draft)
}

/// The certificate of a row by the order of a plan.
fn written(course: &Course<'_, '_>, row: &Row) -> Result<Items<u8>, Fail<TooLong>>
    requires holds { HoldsOver course.now.setting.bound.now.db.now course.now.setting.bound.now.query.now row.now course.now.order.now }
    ensures text { IfOk result (IsCertificate course.now.setting.bound.now.db.now course.now.setting.bound.now.query.now row.now course.now.order.now) }
    ensures over { IfErr result (RefusesBy (HasLongCertificate course.now.setting.bound.now.db.now course.now.setting.bound.now.query.now row.now course.now.order.now)) }
{
    let mut draft = Draft::new(course.setting.alloc)?;
    match add_all(course, row, &mut draft) {
        Ok(()) => Ok(draft.into_text()),
        Err(fault) => {
            drop(draft);
            Err(fault)
        }
    }
}

/// The certificate of a row, by indexes of the query's tables and by links of its atoms.
fn by_ways(
    alloc: Global,
    bound: &Bound<'_>,
    plan: &Plan,
    row: &Row,
    paths: &[Option<RowIndex<'_>>],
    ways: &[Items<Link<'_>>],
) -> Result<Items<u8>, Fail<TooLong>>
    requires plan { AreQueryAtoms bound.now.query.now plan.now.order }
    requires holds { HoldsOver bound.now.db.now bound.now.query.now row.now plan.now.order }
    requires paths { ArePaths bound.now.query.now bound.now.db.now paths.now }
    requires ways { AreWays bound.now.query.now bound.now.db.now plan.now.order ways.now }
    ensures text { IfOk result (IsCertificate bound.now.db.now bound.now.query.now row.now plan.now.order) }
    ensures over { IfErr result (RefusesBy (HasLongCertificate bound.now.db.now bound.now.query.now row.now plan.now.order)) }
{
    let order = plan.order.as_slice();
    let setting = Setting {
        alloc,
        bound: &*bound,
        paths: &*paths,
        joined: JoinedColumns::new(bound),
    };
    let shared = shared_or_none(&setting, order);
    let course = Course {
        setting,
        order,
        shared: shared.as_slice(),
        ways: &*ways,
    };
    written(&course, row)
}

/// The certificate of a row, by indexes of the query's tables.
fn by_paths(
    alloc: Global,
    bound: &Bound<'_>,
    plan: &Plan,
    row: &Row,
    paths: &[Option<RowIndex<'_>>],
) -> Result<Items<u8>, Fail<TooLong>>
    requires plan { AreQueryAtoms bound.now.query.now plan.now.order }
    requires holds { HoldsOver bound.now.db.now bound.now.query.now row.now plan.now.order }
    requires paths { ArePaths bound.now.query.now bound.now.db.now paths.now }
    ensures text { IfOk result (IsCertificate bound.now.db.now bound.now.query.now row.now plan.now.order) }
    ensures over { IfErr result (RefusesBy (HasLongCertificate bound.now.db.now bound.now.query.now row.now plan.now.order)) }
{
    let ways = ways_of(alloc, bound, plan, bound.query.answer.as_slice())?;
    let text = by_ways(alloc, bound, plan, row, paths, ways.as_slice());
    drop(ways);
    text
}

/// The certificate of a row for which a query's plan holds: the line `rewriting`, and then statements, each with a semicolon
/// and a line feed, that make the query's tables, say which row is certain for which query, name the plan's tables, and list
/// blocks. The first block is the first one, in block order, of the plan's first table all of whose rows fit and have the rest
/// of the plan hold with them; behind it stand, for each of its rows, the blocks of that rest. In every database that has
/// these blocks the row is certain (Koutris and Wijsen, ACM TODS 2017). Where the tables, the query's literals and the row could be written
/// as statements, `check_rewriting` says of the text that it is verified, and nothing else.
///
/// # Errors
///
/// `TooLong` exactly where a statement has more than `LONGEST_TEXT` bytes or the whole more than `LONGEST_CERTIFICATE`;
/// `NoMemory` where memory is refused.
pub fn certificate(
    alloc: Global,
    bound: &Bound<'_>,
    plan: &Plan,
    row: &Row,
) -> Result<Items<u8>, Fail<TooLong>>
    requires plan { IsPlanOf bound.now.query.now plan.now.order }
    requires holds { HoldsOver bound.now.db.now bound.now.query.now row.now plan.now.order }
    requires long { length row.now ≡ length bound.now.query.now.answer }
    ensures text { IfOk result (IsCertificate bound.now.db.now bound.now.query.now row.now plan.now.order) }
    ensures over { IfErr result (RefusesBy (HasLongCertificate bound.now.db.now bound.now.query.now row.now plan.now.order)) }
    ensures verified { AreValid bound.now.db.now → HasValidLiterals bound.now.query.now → IsValidRow row.now → answer_fault bound.now.db.now bound.now.query.now row.now ≡ None → IfOk result IsVerified }
    ensures passes { (nodes : List Node) → IsMade bound.now.query.now (stored bound.now.db.now) row.now [] plan.now.order nodes → PassesFor bound.now.query.now row.now plan.now.order nodes × HasListedBlocks bound.now.query.now (stored bound.now.db.now) nodes }
{
    let paths = paths_of(alloc, bound, plan, bound.query.answer.as_slice())?;
    let text = by_paths(alloc, bound, plan, row, paths.as_slice());
    drop(paths);
    text
}
