//! A plan that is gone over, and the columns by which the rests of it depend on the rows taken before.

ghost use Rattle.std.specs.Prelude.{◌≤◌, ◌*◌, length};
ghost use Rattle.cqa_model.specs.declared.limits.TheConstants.{MOST_ROWS};
ghost use Rattle.plan_rows.specs.Left.{AreQueryAtoms, AreSharedInParts};
ghost use Rattle.plan_rows.specs.Links.{AreWays};

use crate::links::Link;
use crate::setting::Setting;
use cqa_model::ColRef;
use cqa_value::Items;

/// How many rests of a plan are remembered at least, where there are so many.
const FEWEST_KEPT: usize = 1_024;

/// What a plan is evaluated over, the order of its atoms, for each number of first atoms the columns of them that are
/// linked to columns of the others, as far as there are such lists, and by atom the later atoms by which it is linked to those
/// before it, where links are wanted.
#[derive(Drop)]
pub struct Course<'x, 'a> {
    pub setting: Setting<'x, 'a>,
    pub order: &'x [u32],
    pub shared: &'x [Items<ColRef>],
    pub ways: &'x [Items<Link<'x>>],
    pub ghost atoms: { AreQueryAtoms setting.bound.now.query.now order.now },
    pub ghost shares: { ∥ AreSharedInParts setting.bound.now.query.now order.now shared.now ∥₁ },
    pub ghost linked: { ∥ AreWays setting.bound.now.query.now setting.bound.now.db.now order.now ways.now ∥₁ },
}

/// How many rows the tables of a query's atoms have, a table counted once for each of its atoms.
fn row_total(setting: &Setting<'_, '_>) -> u64
    ensures { result ≤ length setting.now.bound.now.query.now.atoms * MOST_ROWS }
{
    let mut rows = 0;
    for atom in setting.bound.query.atoms.as_slice() {
        rows += setting.bound.db.rows(atom.table).len() as u64;
    }
    rows
}

/// How many rows may be tried along a plan before what is decided is remembered: four times those of the query's tables.
pub(crate) fn turns_before_memo(setting: &Setting<'_, '_>) -> u64 {
    4 * row_total(setting)
}

/// How many rests of a plan are remembered at most: as many as the query's tables have rows, a table counted once for each
/// of its atoms, at least 1,024.
pub(crate) fn rests_to_keep(setting: &Setting<'_, '_>) -> usize {
    FEWEST_KEPT.max(row_total(setting) as usize)
}
