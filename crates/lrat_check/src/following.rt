//! Hints, and whether a clause follows by them.

ghost use Rattle.std.specs.Prelude.{◌≡◌, ℕ, pos, negsuc, IfOk, List, MatchOption};
ghost use Rattle.cnf_form.specs.declared.formula.Lit.{Lit as Literal};
ghost use Rattle.lrat_check.specs.Marks.{Shows, AllOpen};
ghost use Rattle.lrat_check.specs.Store.{live_of};
ghost use Rattle.lrat_check.specs.Following.{FollowIs, ClauseIs, EndIs, AdditionIs};

use crate::LogCause;
use crate::marks::{Look, Marks};
use crate::store::Store;
use cnf_form::Lit;
use cqa_value::NoMemory;

/// What following a hint comes to.
#[derive(Clone, Copy)]
pub enum Follow {
    /// All literals of the clause are false.
    Pass,
    /// The one literal that is left is true from now on.
    On,
    Fail(LogCause),
}

/// The id of a hint; none where it is negative.
fn id_of(hint: &i64) -> Option<u64>
    ensures { MatchOption result ((n : ℕ) × (hint.now ≡ negsuc n)) (λ id. hint.now ≡ pos id) }
{
    if *hint < 0 { None } else { Some(*hint as u64) }
}

fn follow_clause(marks: &mut Marks, clause: &[Lit]) -> Result<Follow, NoMemory>
    ensures { IfOk result (λ f. (held : List Literal) → Shows marks.old held → ClauseIs held clause.now marks.new f) }
{
    match marks.look(clause) {
        Look::Conflict => Ok(Follow::Pass),
        Look::Many => Ok(Follow::Fail(LogCause::HintNotUnit)),
        Look::Unit(lit) => {
            let _ = marks.hold(lit)?;
            Ok(Follow::On)
        }
    }
}

fn follow_one(store: &Store, marks: &mut Marks, hint: &i64) -> Result<Follow, NoMemory>
    ensures { IfOk result (λ f. (held : List Literal) → Shows marks.old held → FollowIs (live_of store.now) held hint.now marks.new f) }
{
    let Some(id) = id_of(hint) else {
        return Ok(Follow::Fail(LogCause::RatHint));
    };
    let Some(clause) = store.clause(id) else {
        return Ok(Follow::Fail(LogCause::UnknownId));
    };
    follow_clause(marks, clause)
}

fn follow_all(store: &Store, marks: &mut Marks, hints: &[i64]) -> Result<Option<LogCause>, NoMemory>
    ensures { IfOk result (λ f. (held : List Literal) → Shows marks.old held → EndIs (live_of store.now) held hints.now f) }
{
    for hint in hints {
        match follow_one(store, marks, hint)? {
            Follow::Pass => return Ok(None),
            Follow::On => {}
            Follow::Fail(cause) => return Ok(Some(cause)),
        }
    }
    Ok(Some(LogCause::NoConflict))
}

/// Follows the hints of a clause, with its own literals held false.
fn follow_addition(
    store: &Store,
    marks: &mut Marks,
    clause: &[Lit],
    hints: &[i64],
) -> Result<Option<LogCause>, NoMemory>
    requires { AllOpen marks.old }
    ensures { IfOk result (λ f. AdditionIs (live_of store.now) clause.now hints.now f) }
{
    if marks.assume(clause)? {
        return Ok(None);
    }
    follow_all(store, marks, hints)
}

/// Tries whether a clause follows by its hints, and gives the cause where it doesn't. The marks are clear before and after.
pub fn try_addition(
    store: &Store,
    marks: &mut Marks,
    clause: &[Lit],
    hints: &[i64],
) -> Result<Option<LogCause>, NoMemory>
    requires { AllOpen marks.old }
    ensures open { AllOpen marks.new }
    ensures tried { IfOk result (λ f. AdditionIs (live_of store.now) clause.now hints.now f) }
{
    let tried = follow_addition(store, marks, clause, hints);
    marks.clear();
    tried
}
