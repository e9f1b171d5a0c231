//! The method of a query over its tables.

ghost use Rattle.std.specs.Prelude.{IfOk};
ghost use Rattle.query_strategy.specs.Strategies.{IsStrategyOf};

use cqa_model::MOST_ATOMS;
use cqa_value::NoMemory;
use query_strategy::{Strategy, strategy_by_sizes};
use std::alloc::Global;
use table_blocks::Bound;

/// The number of rows of each atom's table.
fn sizes_of(bound: &Bound<'_>) -> [u32; MOST_ATOMS as usize] {
    let mut sizes = [0; MOST_ATOMS as usize];
    let atoms = bound.query.atoms.as_slice();
    for at in 0..atoms.len() {
        sizes[at] = bound.rows_of(at as u32).len() as u32;
    }
    sizes
}

/// The method of a query, whose order is good for evaluation over its tables.
///
/// # Errors
///
/// `NoMemory` where memory is refused.
pub fn strategy_over(alloc: Global, bound: &Bound<'_>) -> Result<Strategy, NoMemory>
    ensures { IfOk result (IsStrategyOf bound.now.query.now) }
{
    let sizes = sizes_of(bound);
    strategy_by_sizes(alloc, bound.query, &bound.variables, &sizes)
}
