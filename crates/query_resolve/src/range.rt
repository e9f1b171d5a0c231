//! A `range` over several tables against a database, check by check: its query, its goal, the column of its groups, and which
//! of its tables isn't strict.

ghost use Rattle.std.specs.Prelude.{◌≡◌, ◌≤◌, ⊤, Some, None, [], not, position, length};
ghost use Rattle.std.specs.List.{AllZip, list_all};
ghost use Rattle.cqa_value.specs.declared.value.Kind.TheVariants as kinds;
ghost use Rattle.cqa_model.specs.declared.limits.TheConstants.{MOST_ATOMS};
ghost use Rattle.cqa_model.specs.declared.query.Atom.{Atom};
ghost use Rattle.refusals.specs.declared.refusal.Refusal.TheVariants.{NotStrict};
ghost use Rattle.refusals.specs.Refusal.{Checked, IsRefusedAs, first_of};
ghost use Rattle.query_resolve.specs.Names.{strict_named};
ghost use Rattle.query_resolve.specs.Checks.{column_fault, column_kind, kinds_fault, join_goal_fault, join_group_fault, tables_fault, lax_fault, first_fault, range_join_fault};
ghost use Rattle.query_resolve.specs.Resolved.{IsAtomOf, IsColumnOf, IsJoinGoalOf, IsJoinGroupOf, IsRangeOf, lax_of};

use crate::column::{column_of, typed_column};
use crate::condition::{check_kinds, conds_of};
use crate::faults::limit;
use crate::from::atoms_of;
use aggregate_range::Goal;
use cqa_model::{Atom, ColRef, MOST_ATOMS, Query};
use cqa_value::{Fail, Items, Kind, Name, NoMemory};
use refusals::{LimitKind, Refusal};
use spj_syntax::{RawCol, RawJoinGoal, RawRange};
use std::alloc::Global;
use table_blocks::Database;

/// A `range` over several tables with its names resolved: the query, with no answer column, of whose witnesses something is
/// asked; what that is, of which atom's column; the column by whose values witnesses are grouped, if any; and the atom beside
/// which each table is strict.
#[derive(Drop)]
pub struct RangeQuery {
    pub query: Query,
    pub goal: Goal,
    pub atom: u32,
    pub group: Option<ColRef>,
    pub lax: u32,
}

/// The `range` over several tables that is written, over a database's tables.
///
/// # Errors
///
/// The first that applies: `Limit` with the atoms; for each table `UnknownTable` or `SelfJoin`; for the goal's column
/// `UnknownTable`, `UnknownColumn` or `AmbiguousColumn`, and `TypeMismatch` with condition 0 for a sum of texts; for each
/// condition what a query's has; for the column of the groups what the goal's has; and `NotStrict` with the second table that
/// isn't strict.
/// `NoMemory` where memory is refused.
pub fn resolve_range(
    alloc: Global,
    db: &Database,
    range: &RawRange,
) -> Result<RangeQuery, Fail<Refusal>>
    ensures { Checked result (range_join_fault db.now range.now) (IsRangeOf db.now range.now) }
{
    let names = range.tables.as_slice();
    check_size(names)?;
    let atoms = atoms_of(alloc, db, names)?;
    let (goal, atom) = join_goal(alloc, db, names, atoms.as_slice(), &range.goal)?;
    let conds = conds_of(alloc, db, names, atoms.as_slice(), range.conds.as_slice())?;
    let group = join_group(alloc, db, names, atoms.as_slice(), &range.group)?;
    check_strict(alloc, db, names)?;
    let lax = lax_atom(atoms.as_slice());
    let query = Query {
        atoms,
        conds,
        answer: Items::new(alloc),
    };
    Ok(RangeQuery {
        query,
        goal,
        atom,
        group,
        lax,
    })
}

/// Whether few enough tables are named.
fn check_size(names: &[Name]) -> Result<(), Fail<Refusal>>
    ensures { Checked result (tables_fault names.now) (λ _. ⊤) }
{
    if names.len() > MOST_ATOMS as usize {
        return Err(limit(LimitKind::Atoms));
    }
    Ok(())
}

/// The goal over the witnesses of a query, with the atom of its column; with the first one, where rows are counted.
fn join_goal(
    alloc: Global,
    db: &Database,
    names: &[Name],
    atoms: &[Atom],
    goal: &RawJoinGoal,
) -> Result<(Goal, u32), Fail<Refusal>>
    requires atoms { AllZip (IsAtomOf db.now) names.now atoms.now }
    requires few { length names.now ≤ MOST_ATOMS }
    ensures { Checked result (join_goal_fault db.now names.now goal.now) (λ found. IsJoinGoalOf db.now names.now goal.now found.0 found.1) }
{
    match goal {
        RawJoinGoal::Count => Ok((Goal::Count, 0)),
        RawJoinGoal::Sum(col) => {
            let summed = summed_column(alloc, db, names, atoms, col)?;
            Ok((Goal::Sum(summed.col), summed.atom))
        }
        RawJoinGoal::Min(col) => {
            let least = column_of(alloc, db, names, atoms, col)?;
            Ok((Goal::Min(least.col), least.atom))
        }
        RawJoinGoal::Max(col) => {
            let greatest = column_of(alloc, db, names, atoms, col)?;
            Ok((Goal::Max(greatest.col), greatest.atom))
        }
    }
}

/// A column of integers.
fn summed_column(
    alloc: Global,
    db: &Database,
    names: &[Name],
    atoms: &[Atom],
    column: &RawCol,
) -> Result<ColRef, Fail<Refusal>>
    requires atoms { AllZip (IsAtomOf db.now) names.now atoms.now }
    requires few { length names.now ≤ MOST_ATOMS }
    ensures { Checked result (first_of (column_fault db.now names.now column.now.table column.now.name) (kinds_fault 0 (column_kind db.now names.now column.now) kinds.Int)) (IsColumnOf db.now names.now column.now) }
{
    let (col, kind) = typed_column(alloc, db, names, atoms, column)?;
    check_kinds(0, kind, Kind::Int)?;
    Ok(col)
}

/// The column by whose values witnesses are grouped, where one is named.
fn join_group(
    alloc: Global,
    db: &Database,
    names: &[Name],
    atoms: &[Atom],
    column: &Option<RawCol>,
) -> Result<Option<ColRef>, Fail<Refusal>>
    requires atoms { AllZip (IsAtomOf db.now) names.now atoms.now }
    requires few { length names.now ≤ MOST_ATOMS }
    ensures { Checked result (join_group_fault db.now names.now column.now) (IsJoinGroupOf db.now names.now column.now) }
{
    match column {
        None => Ok(None),
        Some(column) => Ok(Some(column_of(alloc, db, names, atoms, column)?)),
    }
}

/// Whether the table of a name is strict; where none is there, nothing breaks its key.
fn is_strict(db: &Database, name: &Name) -> bool
    ensures { result ≡ strict_named db.now name.now }
{
    match db.find(name) {
        Some(table) => db.schema(table).strict,
        None => true,
    }
}

/// The refusal of a second table that isn't strict, or want of memory for its name.
fn not_strict(alloc: Global, name: &Name) -> Fail<Refusal>
    ensures { IsRefusedAs result (Some (NotStrict name.now)) }
{
    match name.copy(alloc) {
        Ok(name) => Fail::Refused(Refusal::NotStrict { name }),
        Err(NoMemory) => Fail::NoMemory,
    }
}

/// Whether the tables of names are all strict.
fn are_strict(db: &Database, names: &[Name]) -> bool
    ensures { result ≡ list_all (strict_named db.now) names.now }
{
    names.iter().all(|name| is_strict(db, name))
}

/// Whether a table is strict, or those before it are.
fn check_beside(
    alloc: Global,
    db: &Database,
    name: &Name,
    before: &[Name],
) -> Result<(), Fail<Refusal>>
    ensures { Checked result (lax_fault db.now before.now name.now) (λ _. ⊤) }
{
    if is_strict(db, name) || are_strict(db, before) {
        return Ok(());
    }
    Err(not_strict(alloc, name))
}

/// Whether all tables are strict but for one at most.
fn check_strict(alloc: Global, db: &Database, names: &[Name]) -> Result<(), Fail<Refusal>>
    ensures { Checked result (first_fault (lax_fault db.now) [] names.now) (λ _. ⊤) }
{
    for (at, name) in names.iter().enumerate() {
        check_beside(alloc, db, name, &names[..at])?;
    }
    Ok(())
}

/// The first atom whose table isn't strict.
fn first_lax(atoms: &[Atom]) -> Option<usize>
    ensures { result ≡ position (λ (atom : Atom). not atom.strict) atoms.now }
{
    atoms.iter().position(|atom| !atom.strict)
}

/// The first atom whose table isn't strict, or the first one.
fn lax_atom(atoms: &[Atom]) -> u32
    requires { length atoms.now ≤ MOST_ATOMS }
    ensures { result ≡ lax_of atoms.now }
{
    match first_lax(atoms) {
        Some(at) => at as u32,
        None => 0,
    }
}
