//! The variables of a query: classes of columns that joins make one.

ghost use Rattle.std.specs.Prelude.{◌≡◌, ℕ, ◌<◌, ◌↔◌, ◌⊎◌, All, IsTrue, length, slice_index};
ghost use Rattle.cqa_value.specs.declared.row.TheConstants.{MOST_COLUMNS};
ghost use Rattle.cqa_model.specs.declared.limits.TheConstants.{COLUMN_NUMBERS, MOST_ATOMS};
ghost use Rattle.cqa_model.specs.declared.query.Op.TheVariants.{Eq};
ghost use Rattle.cqa_model.specs.Variables.{number};
ghost use Rattle.cqa_model.specs.Labels.{relabel};
ghost use Rattle.cqa_model.specs.Naming.{
  AreClasses,
  AreSmallColumns,
  AreSmallTests,
  AreVariables,
  IsAnswerClass,
  IsMarked,
  IsTestClass,
};

use crate::{COLUMN_NUMBERS, ColRef, Cond, MOST_COLUMNS, Op, Query, Variables};

/// The variables of a query, found by joining the classes of the two sides of each join.
pub fn variables(query: &Query) -> Variables
    ensures { AreVariables query.now result }
{
    let class = classes(query);
    let mut constant = [false; COLUMN_NUMBERS];
    mark_answers(&mut constant, &class, query.answer.as_slice());
    mark_tests(&mut constant, &class, query.conds.as_slice());
    Variables { class, constant }
}

/// The number of a column: `MOST_COLUMNS` times its atom's place plus its own.
pub(crate) fn number_of(col: ColRef) -> usize
    requires atom { col.atom < MOST_ATOMS }
    requires col { col.col < MOST_COLUMNS }
    ensures is { result ≡ number col }
    ensures within { result < COLUMN_NUMBERS }
{
    MOST_COLUMNS * (col.atom as usize) + (col.col as usize)
}

/// The class of each column.
fn classes(query: &Query) -> [u8; COLUMN_NUMBERS]
    ensures is { AreClasses query.now.conds result }
    ensures small { All (λ k. k < COLUMN_NUMBERS) result }
{
    let conds = query.conds.as_slice();
    let mut class = first_classes();
    for k in (0..conds.len()).rev() {
        if let Cond::Join { left, right } = &conds[k] {
            let a = class[number_of(*left)];
            let b = class[number_of(*right)];
            join(&mut class, a, b);
        }
    }
    class
}

/// Each column's own number.
fn first_classes() -> [u8; COLUMN_NUMBERS]
    ensures { (i : ℕ) → i < COLUMN_NUMBERS → slice_index result i ≡ i }
{
    let mut class = [0; COLUMN_NUMBERS];
    for i in 0..COLUMN_NUMBERS {
        class[i] = i as u8;
    }
    class
}

/// Makes two classes one.
#[tactic(auto, unfolding(crate::specs::Labels::relabel))]
fn join(class: &mut [u8; COLUMN_NUMBERS], a: u8, b: u8)
    ensures { (i : ℕ) → i < COLUMN_NUMBERS → slice_index class.new i ≡ relabel a b (slice_index class.old i) }
{
    let low = a.min(b);
    let high = a.max(b);
    for c in class.iter_mut() {
        if *c == high {
            *c = low;
        }
    }
}

/// Marks the classes of the answer columns.
fn mark_answers(marks: &mut [bool; COLUMN_NUMBERS], class: &[u8; COLUMN_NUMBERS], answer: &[ColRef])
    requires columns { AreSmallColumns answer.now }
    requires classes { All (λ k. k < COLUMN_NUMBERS) class.now }
    ensures { (k : ℕ) → IsMarked marks.new k ↔ (IsMarked marks.old k ⊎ IsAnswerClass class.now answer.now (length answer.now) k) }
{
    for col in answer {
        mark(marks, class[number_of(*col)], true);
    }
}

/// Marks the classes of the columns that are tested to be equal to a value.
fn mark_tests(marks: &mut [bool; COLUMN_NUMBERS], class: &[u8; COLUMN_NUMBERS], conds: &[Cond])
    requires columns { AreSmallTests conds.now }
    requires classes { All (λ k. k < COLUMN_NUMBERS) class.now }
    ensures { (k : ℕ) → IsMarked marks.new k ↔ (IsMarked marks.old k ⊎ IsTestClass class.now conds.now (length conds.now) k) }
{
    for cond in conds {
        if let Cond::Test { col, op, .. } = cond {
            mark(marks, class[number_of(*col)], is_equality(*op));
        }
    }
}

/// Marks a class if it is wanted.
fn mark(marks: &mut [bool; COLUMN_NUMBERS], class: u8, wanted: bool)
    requires { class < COLUMN_NUMBERS }
    ensures { (k : ℕ) → IsMarked marks.new k ↔ (IsMarked marks.old k ⊎ (IsTrue wanted × (k ≡ class))) }
{
    if wanted {
        marks[class as usize] = true;
    }
}

/// Is it `=`?
fn is_equality(op: Op) -> bool
    ensures { IsTrue result ↔ (op ≡ Eq) }
{
    matches!(op, Op::Eq)
}
