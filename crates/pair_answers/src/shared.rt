//! The columns of variables that both atoms have.
//! Constants are among them; rows that fit agree on those anyway.

ghost use Rattle.std.specs.Prelude.{◌*◌, ◌≤◌, IfOk, length};
ghost use Rattle.cqa_value.specs.declared.row.TheConstants.{MOST_COLUMNS};
ghost use Rattle.weak_pairs.specs.Numbering.{AreShared};
ghost use Rattle.pair_answers.specs.Shared.{pairs_of};

use crate::pair::PairQuery;
use cqa_model::ColRef;
use cqa_value::NoMemory;
use join_access::are_linked;
use std::alloc::Global;

/// A column of the first atom and one of the second, of one variable.
#[derive(Clone, Copy)]
pub(crate) struct Shared {
    pub left: u32,
    pub right: u32,
}

/// The pairs of columns of one variable, one of the first atom and one of the second.
///
/// # Errors
///
/// `NoMemory` where memory is refused.
pub(crate) fn shared_columns(alloc: Global, pair: &PairQuery<'_>) -> Result<Vec<Shared>, NoMemory>
    ensures shared { IfOk result (λ cols. AreShared pair.now.bound.now.query.now (pairs_of cols.items)) }
    ensures few { IfOk result (λ cols. length cols.items ≤ MOST_COLUMNS * MOST_COLUMNS) }
{
    let bound = pair.bound;
    let mut cols = Vec::new(alloc);
    let left_width = bound.width_of(0);
    let right_width = bound.width_of(1);
    for i in 0..left_width {
        for j in 0..right_width {
            let linked = are_linked(
                bound.query,
                &bound.variables,
                ColRef { atom: 0, col: i },
                ColRef { atom: 1, col: j },
            );
            if linked {
                cols.push(Shared { left: i, right: j })?;
            }
        }
    }
    Ok(cols)
}
