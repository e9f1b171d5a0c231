//! The clauses of lists of classes.

ghost use Rattle.std.specs.Prelude.{◌≡◌, ◌++◌, true, false, IfOk, map};
ghost use Rattle.cnf_form.specs.Literals.{literals};
ghost use Rattle.list_search.specs.Classing.{literal_of};

use cnf_form::{Clause, Lit};
use cqa_value::{Items, NoMemory};
use std::alloc::Global;

/// The clause of some classes.
fn clause_of(alloc: Global, numbers: &[u32], positive: bool) -> Result<Clause, NoMemory>
    ensures { IfOk result (λ clause. clause.lits ≡ map (literal_of positive) numbers.now) }
{
    let mut lits = Vec::with_capacity(alloc, numbers.len())?;
    for var in numbers {
        lits.push(Lit {
            var: *var,
            positive,
        })?;
    }
    Ok(Clause {
        lits: Items::from_vec(lits),
    })
}

/// Adds the clause of each list.
fn add_clauses(
    alloc: Global,
    lists: &[Items<u32>],
    positive: bool,
    clauses: &mut Vec<Clause>,
) -> Result<(), NoMemory>
    ensures { IfOk result (λ done. literals clauses.new.items ≡ literals clauses.old.items ++ map (map (literal_of positive)) lists.now) }
{
    for list in lists {
        clauses.push(clause_of(alloc, list.as_slice(), positive)?)?;
    }
    Ok(())
}

/// A positive clause of the classes of each block, and then a negative one of those of each list.
///
/// # Errors
///
/// `NoMemory` where memory is refused.
pub fn clauses_of(
    alloc: Global,
    whole: &[Items<u32>],
    found: &[Items<u32>],
) -> Result<Items<Clause>, NoMemory>
    ensures { IfOk result (λ clauses. literals clauses ≡ map (map (literal_of true)) whole.now ++ map (map (literal_of false)) found.now) }
{
    let mut clauses = Vec::with_capacity(alloc, whole.len() + found.len())?;
    add_clauses(alloc, whole, true, &mut clauses)?;
    add_clauses(alloc, found, false, &mut clauses)?;
    Ok(Items::from_vec(clauses))
}
