//! A second look at the formula of lists: rows that agree in what is spoken of are one variable, which makes most formulas smaller.

ghost use Rattle.std.specs.Prelude.{◌≡◌, IfOk};
ghost use Rattle.join_access.specs.Listing.{names_of};
ghost use Rattle.row_lists.specs.Classes.{AreClosed};
ghost use Rattle.row_lists.specs.Encodings.{AreBlocksOf};
ghost use Rattle.row_lists.specs.Lists.{IsForced};
ghost use Rattle.list_search.specs.Finding.{FoundSays};
ghost use Rattle.list_search.specs.Scopes.{columns_of};

use crate::finding::found_in;
use crate::quotient::formula_of_classes;
use crate::scope::Scope;
use cqa_value::NoMemory;
use flat_formula::Found;
use row_lists::RowLists;
use row_lists::numbering::Numbering;
use std::alloc::Global;

/// What the solver finds out of lists by the formula over classes, by a search of at most `budget` conflicts. Its time grows with
/// the lists, and not with the relevant blocks.
///
/// # Errors
///
/// `NoMemory` where memory is refused.
pub fn second_look(
    alloc: Global,
    scope: &Scope,
    lists: &RowLists<'_>,
    blocks: &Numbering,
    budget: u32,
) -> Result<Found, NoMemory>
    requires frame { lists.now.frame.now ≡ scope.now.frame }
    requires closed { AreClosed lists.now.db.now (columns_of scope.now) (names_of lists.now.lists.now) }
    requires blocks { AreBlocksOf lists.now.db.now lists.now.frame.now.tables (names_of lists.now.lists.now) blocks.now }
    ensures { IfOk result (FoundSays (IsForced lists.now.db.now (names_of lists.now.lists.now))) }
{
    let cnf = formula_of_classes(alloc, scope, lists, blocks)?;
    let found = found_in(alloc, &cnf, budget);
    drop(cnf);
    found
}
