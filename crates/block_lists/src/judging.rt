//! Whether each choice of a row of each block holds a list whole.

ghost use Rattle.std.specs.Prelude.{IfOk};
ghost use Rattle.block_lists.specs.Groups.{IsGroup};
ghost use Rattle.block_lists.specs.Judging.{IsJudged, Tells};

use crate::proving::{Proved, prove_unclear};
use crate::room::Room;
use crate::walking::{Walked, walk};
use block_choices::Lists;
use cqa_value::NoMemory;
use std::alloc::Global;

/// What is found out of a group.
#[derive(Clone, Copy, Debug, PartialEq, Eq)]
pub enum Judged {
    /// Each choice of a row of each block holds a list whole.
    Certain,
    /// The choice in the room holds none.
    Open,
    /// The budget is used up for the group's formula.
    Spent,
}

/// What is found out, without the evidence.
fn judged_by(proved: Proved) -> Judged
    ensures { Tells proved result }
{
    match proved {
        Proved::Refuted { cnf, log } => {
            drop(log);
            drop(cnf);
            Judged::Certain
        }
        Proved::Open => Judged::Open,
        Proved::Spent => Judged::Spent,
    }
}

/// Whether each choice of a row of each block holds a list whole, or a choice that holds none, which is left in the room. It takes
/// a walk, and where that comes to no end soon, searches of at most `budget` conflicts each.
///
/// # Errors
///
/// `NoMemory` where memory is refused.
pub fn judge(
    alloc: Global,
    sizes: &[u32],
    lists: &Lists,
    budget: u32,
    room: &mut Room,
) -> Result<Judged, NoMemory>
    requires { IsGroup sizes.now lists.now }
    ensures { IfOk result (IsJudged sizes.now lists.now budget room.new.choice.items) }
{
    match walk(sizes, lists, &mut room.choice)? {
        Walked::Forced => Ok(Judged::Certain),
        Walked::Avoided => Ok(Judged::Open),
        Walked::Unclear => {
            let proved = prove_unclear(alloc, sizes, lists, budget, &mut room.choice)?;
            Ok(judged_by(proved))
        }
    }
}
