//! The refusals that more than one check gives.

ghost use Rattle.std.specs.Prelude.{◌≡◌, Some};
ghost use Rattle.cqa_value.specs.declared.memory.Fail.TheVariants.{Refused};
ghost use Rattle.refusals.specs.declared.refusal.Refusal.TheVariants.{Limit, TypeMismatch, UnknownTable, UnknownColumn};
ghost use Rattle.refusals.specs.Refusal.{IsRefusedAs};
ghost use Rattle.refusals.specs.Kinds.{same_kind};
ghost use Rattle.query_resolve.specs.Checks.{fault_unless};

use cqa_value::{Fail, Kind, Name, NoMemory};
use refusals::{LimitKind, Place, Refusal};
use std::alloc::Global;

/// More than the greatest number of something.
pub(crate) fn limit(what: LimitKind) -> Fail<Refusal>
    ensures { result ≡ Refused (Limit what) }
{
    Fail::Refused(Refusal::Limit { what })
}

/// The refusal where no table has the name, or want of memory for its copy.
pub fn unknown_table(alloc: Global, name: &Name) -> Fail<Refusal>
    ensures { IsRefusedAs result (Some (UnknownTable name.now)) }
{
    match name.copy(alloc) {
        Ok(name) => Fail::Refused(Refusal::UnknownTable { name }),
        Err(NoMemory) => Fail::NoMemory,
    }
}

/// The table, where it is written, has no column of the name, or no table has one.
pub(crate) fn unknown_column(alloc: Global, table: Option<Name>, name: &Name) -> Fail<Refusal>
    ensures { IsRefusedAs result (Some (UnknownColumn table name.now)) }
{
    match name.copy(alloc) {
        Ok(name) => Fail::Refused(Refusal::UnknownColumn { table, name }),
        Err(NoMemory) => {
            drop(table);
            Fail::NoMemory
        }
    }
}

/// Two kinds at a place that differ.
pub(crate) fn kind_mismatch(place: Place, a: Kind, b: Kind) -> Option<Refusal>
    ensures { result ≡ fault_unless (same_kind a b) (TypeMismatch place) }
{
    if a == b {
        return None;
    }
    Some(Refusal::TypeMismatch { place })
}
