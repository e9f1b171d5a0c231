//! What is found out of lists: whether every repair keeps one of them whole, and if that takes too long, why.
//! Some lists are avoided by rows in no list alone, most small formulas are decided by a first look, and the solver gets what is
//! left.

ghost use Rattle.std.specs.Prelude.{◌≡◌, IfOk};
ghost use Rattle.join_access.specs.Listing.{names_of};
ghost use Rattle.row_lists.specs.Classes.{AreClosed};
ghost use Rattle.row_lists.specs.Encodings.{AreBlocksOf};
ghost use Rattle.list_search.specs.Judging.{IsJudged, Judges};
ghost use Rattle.list_search.specs.Scopes.{columns_of};

use crate::avoiding::are_avoidable;
use crate::decision::{Decided, solved};
use crate::first_look::first_look;
use crate::room::Room;
use crate::scope::Scope;
use crate::second_look::second_look;
use cdcl::Outcome;
use cnf_form::{Cnf, Log};
use cqa_value::NoMemory;
use flat_formula::Found;
use row_lists::numbering::Numbering;
use row_lists::{RowLists, formula_over, relevant_blocks};
use std::alloc::Global;

/// What is found out of lists.
#[derive(Debug, Drop)]
pub enum Judged {
    /// Every repair keeps one of them whole.
    Forced,
    /// Some repair keeps none of them whole.
    Avoided,
    /// The budget is used up for their formula.
    Spent { cnf: Cnf, log: Log },
}

/// What an outcome says of the lists of a formula.
fn judged_by(decided: Decided) -> Judged
    ensures { Judges decided.formula decided.outcome result }
{
    let Decided { formula, outcome } = decided;
    match outcome {
        Outcome::Sat(values) => {
            drop(values);
            drop(formula);
            Judged::Avoided
        }
        Outcome::Unsat(log) => {
            drop(log);
            drop(formula);
            Judged::Forced
        }
        Outcome::Spent(log) => Judged::Spent {
            cnf: formula.cnf,
            log,
        },
    }
}

/// What the solver finds out of the lists whose relevant blocks are numbered, by a search of at most `budget` conflicts.
fn judge_blocks(
    alloc: Global,
    lists: &RowLists<'_>,
    blocks: &Numbering,
    budget: u32,
) -> Result<Judged, NoMemory>
    requires { AreBlocksOf lists.now.db.now lists.now.frame.now.tables (names_of lists.now.lists.now) blocks.now }
    ensures { IfOk result (IsJudged lists.now.db.now lists.now.frame.now.tables (names_of lists.now.lists.now) budget) }
{
    let formula = formula_over(alloc, lists, blocks)?;
    let decided = solved(alloc, formula, budget)?;
    Ok(judged_by(decided))
}

/// What is found out of the lists whose relevant blocks are numbered, by searches of at most `budget` conflicts each: the first
/// is over classes of rows that agree in what is spoken of, and the second, where the first comes to nothing, over rows.
fn judge_classes(
    alloc: Global,
    scope: &Scope,
    lists: &RowLists<'_>,
    blocks: &Numbering,
    budget: u32,
) -> Result<Judged, NoMemory>
    requires frame { lists.now.frame.now ≡ scope.now.frame }
    requires closed { AreClosed lists.now.db.now (columns_of scope.now) (names_of lists.now.lists.now) }
    requires blocks { AreBlocksOf lists.now.db.now lists.now.frame.now.tables (names_of lists.now.lists.now) blocks.now }
    ensures { IfOk result (IsJudged lists.now.db.now lists.now.frame.now.tables (names_of lists.now.lists.now) budget) }
{
    match second_look(alloc, scope, lists, blocks, budget)? {
        Found::Satisfiable => Ok(Judged::Avoided),
        Found::Unsatisfiable => Ok(Judged::Forced),
        Found::Unclear => judge_blocks(alloc, lists, blocks, budget),
    }
}

/// What is found out of lists by their formula.
fn judge_formula(
    alloc: Global,
    scope: &Scope,
    lists: &RowLists<'_>,
    budget: u32,
    room: &mut Room,
) -> Result<Judged, NoMemory>
    requires frame { lists.now.frame.now ≡ scope.now.frame }
    requires closed { AreClosed lists.now.db.now (columns_of scope.now) (names_of lists.now.lists.now) }
    ensures { IfOk result (IsJudged lists.now.db.now lists.now.frame.now.tables (names_of lists.now.lists.now) budget) }
{
    let blocks = relevant_blocks(alloc, lists)?;
    match first_look(lists, &blocks, budget, room)? {
        Found::Satisfiable => Ok(Judged::Avoided),
        Found::Unsatisfiable => Ok(Judged::Forced),
        Found::Unclear => judge_classes(alloc, scope, lists, &blocks, budget),
    }
}

/// What is found out of lists, by searches of at most `budget` conflicts each. Where rows in no list show that some repair keeps
/// none of them whole, their blocks aren't walked; with a budget of 0 that isn't looked at. The lists are closed under exchange
/// for rows that agree in the columns of the scope.
///
/// # Errors
///
/// `NoMemory` where memory is refused.
pub fn judge(
    alloc: Global,
    scope: &Scope,
    lists: &RowLists<'_>,
    budget: u32,
    room: &mut Room,
) -> Result<Judged, NoMemory>
    requires frame { lists.now.frame.now ≡ scope.now.frame }
    requires closed { AreClosed lists.now.db.now (columns_of scope.now) (names_of lists.now.lists.now) }
    ensures { IfOk result (IsJudged lists.now.db.now lists.now.frame.now.tables (names_of lists.now.lists.now) budget) }
{
    if budget > 0 && are_avoidable(alloc, lists)? {
        Ok(Judged::Avoided)
    } else {
        judge_formula(alloc, scope, lists, budget, room)
    }
}
