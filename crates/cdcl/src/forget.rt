//! How learnt clauses leave the lists of those that are watched.

ghost use Rattle.std.specs.Prelude.{OnOk, IfOk};
ghost use Rattle.cdcl.specs.Watching.{IsThinned, AreThinned};

use crate::watch::put_list;
use cqa_value::{Items, NoMemory};
use search_trail::usage::Usage;
use std::alloc::Global;

/// The indexes of a list that are below a number, or used.
fn used_of(
    alloc: Global,
    list: &[usize],
    permanent: usize,
    usage: &Usage,
    least: u64,
) -> Result<Vec<usize>, NoMemory>
    ensures { IfOk result (λ used. IsThinned permanent list.now used.items) }
{
    let mut used = Vec::with_capacity(alloc, list.len())?;
    for index in list {
        if *index < permanent || usage.is_used(*index, least) {
            used.push(*index)?;
        }
    }
    Ok(used)
}

/// Takes the indexes that aren't used out of all lists, but for those below a number.
pub(crate) fn thin_lists(
    alloc: Global,
    lists: &mut Vec<Items<usize>>,
    permanent: usize,
    usage: &Usage,
    least: u64,
) -> Result<(), NoMemory>
    ensures { OnOk result (AreThinned permanent lists.old.items lists.new.items) }
{
    for at in 0..lists.len() {
        let used = used_of(alloc, lists[at].as_slice(), permanent, usage, least)?;
        put_list(lists, at, used);
    }
    Ok(())
}
