//! What clauses watch: two literals each, with the clauses of each literal in a list (Moskewicz and others, 2001).

ghost use Rattle.std.specs.Prelude.{◌≡◌, ◌<◌, [], length, MatchOption, OnOk, IfOk, slice_index_or, slice_set, take, drop, ◌≤◌, ◌++◌};
ghost use Rattle.cdcl.specs.Watching.{AreLists, HasWatch, IsPairOf, code_of, listed_at};

use cnf_form::Lit;
use cqa_value::{Items, NoMemory};
use std::alloc::Global;
use std::mem;

/// The two literals that a clause watches.
#[derive(Clone, Copy)]
pub struct Pair {
    pub first: Lit,
    pub second: Lit,
}

/// Lists of clauses for the literals of so many variables, all empty.
pub(crate) fn no_lists(alloc: Global, vars: usize) -> Result<Vec<Items<usize>>, NoMemory>
    ensures { IfOk result (λ v. AreLists v.items vars 0) }
{
    let mut lists = Vec::new(alloc);
    for _var in 0..vars {
        lists.push(Items::new(alloc))?;
        lists.push(Items::new(alloc))?;
    }
    Ok(lists)
}

/// The place of a literal's list among the lists.
pub(crate) fn code(lit: Lit) -> usize
    ensures { result ≡ code_of lit }
{
    let doubled = lit.var as usize + lit.var as usize;
    if lit.positive { doubled + 1 } else { doubled }
}

/// The other literal of a pair that has the literal.
pub(crate) fn other_of(pair: Pair, lit: Lit) -> Option<Lit>
    ensures { MatchOption result (HasWatch pair lit → ⊥) (λ other. IsPairOf pair lit other) }
{
    if pair.first == lit {
        Some(pair.second)
    } else if pair.second == lit {
        Some(pair.first)
    } else {
        None
    }
}

/// Takes a list out.
pub(crate) fn take_list(alloc: Global, lists: &mut Vec<Items<usize>>, at: usize) -> Vec<usize>
    requires { at < length lists.old.items }
    ensures taken { result.items ≡ slice_index_or lists.old.items at [] }
    ensures left { lists.new.items ≡ slice_set lists.old.items at [] }
{
    mem::replace(&mut lists[at], Items::new(alloc)).into_vec()
}

/// Puts a list in its place.
pub(crate) fn put_list(lists: &mut Vec<Items<usize>>, at: usize, list: Vec<usize>)
    requires { at < length lists.old.items }
    ensures { lists.new.items ≡ slice_set lists.old.items at list.items }
{
    lists[at] = Items::from_vec(list);
}

/// Appends an index to a list.
pub(crate) fn push_index(
    lists: &mut Vec<Items<usize>>,
    at: usize,
    index: usize,
) -> Result<(), NoMemory>
    requires { at < length lists.old.items }
    ensures { OnOk result (lists.new.items ≡ listed_at lists.old.items at index) }
{
    lists[at].push(index)
}

/// Takes the indexes between two places out of a list.
pub(crate) fn close_gap(list: &mut Vec<usize>, from: usize, to: usize)
    requires order { from ≤ to }
    requires range { to ≤ length list.old.items }
    ensures { list.new.items ≡ take from list.old.items ++ drop to list.old.items }
{
    let mut place = from;
    for at in to..list.len() {
        list[place] = list[at];
        place += 1;
    }
    list.truncate(place);
}
