//! The rows for which a plan of all atoms holds, as a list.

ghost use Rattle.std.specs.Prelude.{◌≡◌, ℕ, ◌<◌, ◌↔◌, Contains, List, IfOk, length};
ghost use Rattle.std.specs.List.Sorted.{IsStrictlySortedBy};
ghost use Rattle.cqa_value.specs.declared.value.Value.{Value as Cell};
ghost use Rattle.cqa_value.specs.Values.{row_cmp};
ghost use Rattle.cqa_model.specs.Plan.{HoldsOver};
ghost use Rattle.join_access.specs.Spots.{ArePaths};
ghost use Rattle.plan_rows.specs.Left.{AreQueryAtoms};
ghost use Rattle.plan_rows.specs.Links.{AreWays};

use crate::giving::add_given;
use crate::notes::Notes;
use cqa_model::Plan;
use cqa_value::{Items, NoMemory, Row};
use join_access::RowIndex;
use plan_rows::{
    Candidates, Course, JoinedColumns, Link, Memo, Rest, Setting, Taken, shared_columns,
};
use row_answers::Answers;
use std::alloc::Global;
use table_blocks::Bound;

/// The rows of the answer's length for which a plan of all atoms holds, ascending and each once. Rows are found by the
/// given indexes, of each atom's table one or none, and by the given links of later atoms.
///
/// # Errors
///
/// `NoMemory` where memory is refused.
pub fn answers(
    alloc: Global,
    bound: &Bound<'_>,
    plan: &Plan,
    paths: &[Option<RowIndex<'_>>],
    ways: &[Items<Link<'_>>],
) -> Result<Items<Row>, NoMemory>
    requires plan { AreQueryAtoms bound.now.query.now plan.now.order }
    requires all { (F : ℕ) → F < length bound.now.query.now.atoms → Contains plan.now.order F }
    requires paths { ArePaths bound.now.query.now bound.now.db.now paths.now }
    requires ways { AreWays bound.now.query.now bound.now.db.now plan.now.order ways.now }
    ensures ascending { IfOk result (IsStrictlySortedBy row_cmp) }
    ensures exactly { IfOk result (λ answers. (row : List Cell) → Contains answers row ↔ ((length row ≡ length bound.now.query.now.answer) × HoldsOver bound.now.db.now bound.now.query.now row plan.now.order)) }
{
    let order = plan.order.as_slice();
    let setting = Setting {
        alloc,
        bound,
        paths,
        joined: JoinedColumns::new(bound),
    };
    let shared = shared_columns(&setting, order)?;
    let course = Course {
        setting,
        order,
        shared: shared.as_slice(),
        ways,
    };
    let none = Taken::Nothing;
    let rest = Rest {
        course: &course,
        taken: &none,
        plan: order,
    };
    let mut notes = Notes {
        memo: Memo::over(&course.setting, Candidates::Many),
        barren: None,
        bears: 0,
    };
    let mut found = Answers::new(alloc);
    let added = add_given(&rest, &mut found, &mut notes);
    drop(notes);
    match added {
        Ok(()) => Ok(found.listed()),
        Err(fault) => {
            drop(found);
            Err(fault)
        }
    }
}
