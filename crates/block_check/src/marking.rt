//! What is known of blocks before they are gone over.

ghost use Rattle.std.specs.Prelude.{IfOk, length};
ghost use Rattle.block_check.specs.Walking.{HasMarks};

use crate::blocks::is_block;
use crate::seen::{all_seen, columns_of_key};
use block_tree::Node;
use cqa_model::Query;
use cqa_value::NoMemory;
use std::alloc::Global;

/// Whether a block is one, and the first place of one of its atom and key.
#[derive(Clone, Copy)]
pub struct Mark {
    pub is_block: bool,
    pub first: usize,
}

/// The marks of blocks.
pub fn marks(alloc: Global, query: &Query, nodes: &[Node]) -> Result<Vec<Mark>, NoMemory>
    ensures { IfOk result (λ marks. HasMarks query.now nodes.now (length nodes.now) marks.items) }
{
    let seen = all_seen(alloc, query, nodes)?;
    let mut marks = Vec::new(alloc);
    for node in nodes {
        let first = seen.firsts[marks.len()];
        let is_block = is_block(
            alloc,
            columns_of_key(query, node.atom),
            node.rows.as_slice(),
        )?;
        marks.push(Mark { is_block, first })?;
    }
    Ok(marks)
}
