//! What is asked of the groups of a query's witnesses.

use cqa_model::ColRef;
use range_join::{Sought, Span};
use row_witnesses::RowWitnesses;

/// What is asked of groups: all witnesses of a query, its lax atom, the one whose table needs not be strict, an aggregate, the
/// column whose values make the groups, and for each place of the lax atom's table the span of its block.
#[derive(Clone, Copy)]
pub(crate) struct GroupAsk<'a> {
    pub found: &'a RowWitnesses<'a>,
    pub lax: u32,
    pub sought: &'a Sought,
    pub column: ColRef,
    pub spans: &'a [Span],
}
