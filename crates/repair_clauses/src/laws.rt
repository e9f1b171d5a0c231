//! The laws of the formulas of rows, over the definitions alone.
//! Each is what its function ensures.

ghost use Rattle.repair_clauses.specs.Laws.{ClausesAreExact, ClausesDecide, ClausesRise, FormulaIsWritable, ListsGiveFormula, ModelsReject, OneFormula};

/// The clauses of a row have a satisfying assignment exactly where the rows have one.
pub fn clauses_are_exact()
    ensures { ClausesAreExact }
{}

/// A row is certain exactly where no assignment satisfies its clauses.
pub fn clauses_decide()
    ensures { ClausesDecide }
{}

/// The repair of a satisfying assignment holds no witness of the row.
pub fn models_reject()
    ensures { ModelsReject }
{}

/// A row has at most one formula.
pub fn one_formula()
    ensures { OneFormula }
{}

/// The literals of each clause rise by variable.
pub fn clauses_rise()
    ensures { ClausesRise }
{}

/// The formula of the lists of a row's witnesses, over the query's tables, is the formula of the row.
pub fn lists_give_formula()
    ensures { ListsGiveFormula }
{}

/// The formula of a row over a database can be written, if it has no more clauses than a text may name.
pub fn formula_is_writable()
    ensures { FormulaIsWritable }
{}
