//! The columns by which the rests of a plan depend on the rows taken before: those linked to columns of a rest.

ghost use Rattle.std.specs.Prelude.{◌<◌, ◌↔◌, ℕ, IfOk, OnOk, IsTrue, Contains};
ghost use Rattle.cqa_model.specs.declared.query.ColRef.{ColRef as Column};
ghost use Rattle.cqa_model.specs.Shape.{IsInRange};
ghost use Rattle.cqa_model.specs.Query.{atom_at};
ghost use Rattle.cqa_model.specs.Variables.{AreLinked};
ghost use Rattle.plan_rows.specs.Left.{IsTold, HasShared, AreSharedInParts};

use crate::setting::Setting;
use cqa_model::ColRef;
use cqa_value::{Items, NoMemory};
use join_access::are_linked;
use table_blocks::Bound;

/// Whether an atom has a column that is linked to this one.
pub(crate) fn is_linked_to(bound: &Bound<'_>, atom: u32, column: ColRef) -> bool
    requires { IsInRange bound.now.query.now.atoms column }
    ensures { IsTrue result ↔ (i : ℕ) × (i < (atom_at bound.now.query.now atom).width) × AreLinked bound.now.query.now (record { atom = atom; col = i }) column }
{
    for col in 0..bound.width_of(atom) {
        if are_linked(bound.query, &bound.variables, ColRef { atom, col }, column) {
            return true;
        }
    }
    false
}

/// Whether one of these atoms has a column that is linked to this one.
pub fn is_told(bound: &Bound<'_>, atoms: &[u32], column: ColRef) -> bool
    requires { IsInRange bound.now.query.now.atoms column }
    ensures { IsTrue result ↔ IsTold bound.now.query.now atoms.now column }
{
    for atom in atoms {
        if is_linked_to(bound, *atom, column) {
            return true;
        }
    }
    false
}

/// Adds a column if it is linked to columns of others.
fn add_column(
    bound: &Bound<'_>,
    column: ColRef,
    others: &[u32],
    columns: &mut Vec<ColRef>,
) -> Result<(), NoMemory>
    requires { IsInRange bound.now.query.now.atoms column }
    ensures kept { OnOk result ((c : Column) → Contains columns.old.items c → Contains columns.new.items c) }
    ensures added { OnOk result (IsTold bound.now.query.now others.now column → Contains columns.new.items column) }
{
    if !is_told(bound, others, column) {
        return Ok(());
    }
    columns.push(column)?;
    Ok(())
}

/// Adds those columns of an atom that are linked to columns of others.
fn add_shared(
    bound: &Bound<'_>,
    atom: u32,
    others: &[u32],
    columns: &mut Vec<ColRef>,
) -> Result<(), NoMemory>
    ensures kept { OnOk result ((c : Column) → Contains columns.old.items c → Contains columns.new.items c) }
    ensures added { OnOk result ((j : ℕ) → j < (atom_at bound.now.query.now atom).width → IsTold bound.now.query.now others.now (record { atom = atom; col = j }) → Contains columns.new.items (record { atom = atom; col = j })) }
{
    for col in 0..bound.width_of(atom) {
        add_column(bound, ColRef { atom, col }, others, columns)?;
    }
    Ok(())
}

/// The columns of atoms that are linked to columns of others.
fn shared_of(
    setting: &Setting<'_, '_>,
    front: &[u32],
    rest: &[u32],
) -> Result<Items<ColRef>, NoMemory>
    ensures { IfOk result (HasShared setting.now.bound.now.query.now front.now rest.now) }
{
    let mut columns = Vec::new(setting.alloc);
    for atom in front {
        add_shared(setting.bound, *atom, rest, &mut columns)?;
    }
    Ok(Items::from_vec(columns))
}

/// For each number of first atoms of an order, the columns of them that are linked to columns of the others.
///
/// # Errors
///
/// `NoMemory` where memory is refused.
pub fn shared_columns(
    setting: &Setting<'_, '_>,
    order: &[u32],
) -> Result<Vec<Items<ColRef>>, NoMemory>
    ensures { IfOk result (λ shared. AreSharedInParts setting.now.bound.now.query.now order.now shared.items) }
{
    let mut shared = Vec::new(setting.alloc);
    for count in 0..order.len() {
        let (front, rest) = order.split_at(count);
        shared.push(shared_of(setting, front, rest)?)?;
    }
    Ok(shared)
}

/// The same lists, or none where memory is refused.
pub fn shared_or_none(setting: &Setting<'_, '_>, order: &[u32]) -> Vec<Items<ColRef>>
    ensures { AreSharedInParts setting.now.bound.now.query.now order.now result.items }
{
    match shared_columns(setting, order) {
        Ok(shared) => shared,
        Err(_) => Vec::new(setting.alloc),
    }
}
