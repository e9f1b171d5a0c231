//! The first table that isn't strict and stands in two parts of a union.

ghost use Rattle.std.specs.Prelude.{◌≡◌, ◌↔◌, ◌<◌, ◌≤◌, ℕ, length, IsTrue, IsNone, IfSome};
ghost use Rattle.query_strategy.specs.Apart.{AreApart, HasLoose, IsFirstOf, IsFirstShared, IsLater, IsShared};

use cqa_model::Query;

/// Two parts of a union that share a table that isn't strict: the places of both among the parts, the earlier one first, the
/// table's place in the `from` of the first, and its place in the database.
#[derive(Clone, Copy, Debug, PartialEq, Eq)]
pub struct Shared {
    pub first: usize,
    pub second: usize,
    pub atom: usize,
    pub table: u32,
}

/// Is the table one of the query's, and not strict?
pub fn has_loose(query: &Query, table: u32) -> bool
    ensures { IsTrue result ↔ HasLoose query.now table }
{
    for atom in query.atoms.as_slice() {
        if atom.table == table && !atom.strict {
            return true;
        }
    }
    false
}

/// The first part behind another one that has a table that isn't strict.
fn next_with(parts: &[Query], first: usize, table: u32) -> Option<usize>
    requires { first < length parts.now }
    ensures some { IfSome result (IsLater parts.now first table) }
    ensures least { IfSome result (λ second. (j : ℕ) → IsLater parts.now first table j → second ≤ j) }
    ensures none { IsNone result → (j : ℕ) → IsLater parts.now first table j → ⊥ }
{
    for second in first + 1..parts.len() {
        if has_loose(&parts[second], table) {
            return Some(second);
        }
    }
    None
}

/// The first table of a part that isn't strict and stands in a later part, too, with the first such part.
fn shared_of(parts: &[Query], first: usize) -> Option<Shared>
    requires { first < length parts.now }
    ensures some { IfSome result (IsFirstOf parts.now first) }
    ensures none { IsNone result → (x : Shared) → IsShared parts.now x → x.first ≡ first → ⊥ }
{
    let atoms = parts[first].atoms.as_slice();
    for atom in 0..atoms.len() {
        let table = atoms[atom].table;
        if atoms[atom].strict {
            continue;
        }
        if let Some(second) = next_with(parts, first, table) {
            return Some(Shared {
                first,
                second,
                atom,
                table,
            });
        }
    }
    None
}

/// The first table, by the order of the parts and of the tables in each, that isn't strict and stands in two parts, with the
/// first two that it stands in. `None` exactly where the parts are apart.
pub fn shared_table(parts: &[Query]) -> Option<Shared>
    ensures some { IfSome result (IsFirstShared parts.now) }
    ensures none { IsNone result → AreApart parts.now }
{
    for first in 0..parts.len() {
        let shared = shared_of(parts, first);
        if shared.is_some() {
            return shared;
        }
    }
    None
}
