//! The formula of lists over classes: one of the classes of each block whose rows are all in lists, and not all classes of each
//! list. It has a satisfying assignment exactly where the formula over rows has one.

ghost use Rattle.std.specs.Prelude.{◌≡◌, ◌↔◌, ℕ, [], Some, IfOk, Contains};
ghost use Rattle.cnf_form.specs.Literals.{literals};
ghost use Rattle.cqa_model.specs.declared.query.RowId.{RowId as Name};
ghost use Rattle.join_access.specs.Listing.{names_of};
ghost use Rattle.row_lists.specs.Frames.{AreInFrame, IsInFrame};
ghost use Rattle.row_lists.specs.Spans.{variables_of_spans};
ghost use Rattle.list_search.specs.Classing.{AreClassClauses, AreListsOf};
ghost use Rattle.list_search.specs.Quotients.{AreClassesOf, AreNamesWithin, HasClassOf, IsQuotient};

use crate::class_clauses::clauses_of;
use crate::class_lists::{block_lists, class_at, each_once, push_class};
use crate::classing::Classed;
use crate::listed_classes::listed_classes;
use crate::scope::{Scope, slot_of};
use cnf_form::{Clause, Cnf};
use cqa_model::RowId;
use cqa_value::{Items, NoMemory};
use join_access::{Witness, put_in_order};
use row_lists::numbering::Numbering;
use row_lists::{Frame, RowLists};
use std::alloc::Global;

/// The class of the row of a name.
fn class_of(classed: &Classed, frame: &Frame, id: &RowId) -> Option<u32>
    requires { IsInFrame frame.now.tables frame.now.slots id.now.table }
    ensures { (n : ℕ) → (result ≡ Some n) ↔ HasClassOf frame.now.tables (variables_of_spans classed.now.rows.spans) classed.now.classes.items id.now n }
{
    class_at(classed, slot_of(frame, id.table), id.place)
}

/// Puts the classes of the rows of a list into a list.
fn gather_names(
    classed: &Classed,
    frame: &Frame,
    names: &[RowId],
    numbers: &mut Vec<u32>,
) -> Result<(), NoMemory>
    requires none { numbers.old.items ≡ [] }
    requires within { AreNamesWithin frame.now.tables frame.now.slots names.now }
    ensures { IfOk result (λ done. (n : ℕ) → Contains numbers.new.items n ↔ ((id : Name) × Contains names.now id × HasClassOf frame.now.tables (variables_of_spans classed.now.rows.spans) classed.now.classes.items id n)) }
{
    for id in names {
        push_class(class_of(classed, frame, id), numbers)?;
    }
    Ok(())
}

/// The classes of the rows of a list, rising.
fn names_list(
    alloc: Global,
    classed: &Classed,
    frame: &Frame,
    names: &[RowId],
) -> Result<Items<u32>, NoMemory>
    requires { AreNamesWithin frame.now.tables frame.now.slots names.now }
    ensures { IfOk result (λ numbers. AreClassesOf frame.now.tables (variables_of_spans classed.now.rows.spans) classed.now.classes.items names.now numbers) }
{
    let mut numbers = Vec::with_capacity(alloc, names.len())?;
    gather_names(classed, frame, names, &mut numbers)?;
    put_in_order(&mut numbers);
    Ok(Items::from_vec(numbers))
}

/// The classes of each list.
fn names_lists(
    alloc: Global,
    classed: &Classed,
    frame: &Frame,
    lists: &[Witness],
) -> Result<Vec<Items<u32>>, NoMemory>
    requires { AreInFrame frame.now.tables frame.now.slots (names_of lists.now) }
    ensures { IfOk result (λ numbers. AreListsOf (AreClassesOf frame.now.tables (variables_of_spans classed.now.rows.spans) classed.now.classes.items) (names_of lists.now) numbers.items) }
{
    let mut numbers = Vec::with_capacity(alloc, lists.len())?;
    for list in lists {
        numbers.push(names_list(alloc, classed, frame, list.rows.as_slice())?)?;
    }
    Ok(numbers)
}

/// The clauses over classes, by the numbered rows' classes and the relevant blocks.
fn clauses_over(
    alloc: Global,
    classed: &Classed,
    lists: &RowLists<'_>,
    blocks: &Numbering,
) -> Result<Items<Clause>, NoMemory>
    ensures { IfOk result (λ clauses. AreClassClauses (variables_of_spans classed.now.rows.spans) classed.now.classes.items blocks.now.spans
        (AreClassesOf lists.now.frame.now.tables (variables_of_spans classed.now.rows.spans) classed.now.classes.items) (names_of lists.now.lists.now) (literals clauses)) }
{
    let whole = block_lists(alloc, classed, blocks)?;
    let mut found = names_lists(alloc, classed, lists.frame, lists.lists)?;
    each_once(&mut found);
    let clauses = clauses_of(alloc, whole.as_slice(), found.as_slice());
    drop(found);
    drop(whole);
    clauses
}

/// The formula over classes of rows that agree in what is spoken of. Its variables are the rows that are in lists.
///
/// # Errors
///
/// `NoMemory` where memory is refused.
pub fn formula_of_classes(
    alloc: Global,
    scope: &Scope,
    lists: &RowLists<'_>,
    blocks: &Numbering,
) -> Result<Cnf, NoMemory>
    requires { lists.now.frame.now ≡ scope.now.frame }
    ensures { IfOk result (IsQuotient lists.now.db.now lists.now.frame.now.tables scope.now.columns blocks.now.spans (names_of lists.now.lists.now)) }
{
    let classed = listed_classes(alloc, scope, lists)?;
    let vars = classed.rows.vars;
    let clauses = clauses_over(alloc, &classed, lists, blocks);
    drop(classed);
    let clauses = clauses?;
    Ok(Cnf { vars, clauses })
}
