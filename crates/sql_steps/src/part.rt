//! Parts of a plan.

use cqa_value::Items;

/// Atoms that hang together by variables that aren't known before them: the number of the first one in the plan, the step
/// that has the contexts in which they hold, the variables of a context, those of the first one's key, whether that step
/// has no two contexts with the same key, and whether it has few contexts: some test of its atoms is for one value.
#[derive(Drop)]
pub struct Part {
    pub number: usize,
    pub step: usize,
    pub columns: Items<u32>,
    pub keys: Items<u32>,
    pub single: bool,
    pub rare: bool,
}
