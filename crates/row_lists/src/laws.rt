//! The laws of lists of names of rows, over the definitions alone. Each is what its function ensures.

ghost use Rattle.row_lists.specs.Laws.{AvoidedByFree, ClassesOfNames, FormulaOfNames, ListClausesRise, ListFormulaIsWritable, ListsDecide, NamesDecide, OneListFormula, PicksRejectLists};

/// Every repair keeps a list whole exactly where no assignment of names satisfies the lists.
pub fn names_decide()
    ensures { NamesDecide }
{}

/// The formula of lists has a satisfying assignment exactly where the names have one.
pub fn formula_of_names()
    ensures { FormulaOfNames }
{}

/// Every repair keeps a list whole exactly where no assignment satisfies the formula.
pub fn lists_decide()
    ensures { ListsDecide }
{}

/// Lists have at most one formula.
pub fn one_list_formula()
    ensures { OneListFormula }
{}

/// The formula over classes has a satisfying assignment exactly where the names have one.
pub fn classes_of_names()
    ensures { ClassesOfNames }
{}

/// The repair of a satisfying assignment keeps no list whole.
pub fn picks_reject_lists()
    ensures { PicksRejectLists }
{}

/// Where each list has a row whose block has a row that is in no list, some repair keeps no list whole.
pub fn avoided_by_free()
    ensures { AvoidedByFree }
{}

/// The literals of each clause rise by variable.
pub fn list_clauses_rise()
    ensures { ListClausesRise }
{}

/// The formula of lists over a database can be written, if it has no more clauses than a text may name.
pub fn list_formula_is_writable()
    ensures { ListFormulaIsWritable }
{}
