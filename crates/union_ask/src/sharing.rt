//! Whether some of the parts of a union share a table that isn't strict.

ghost use Rattle.std.specs.Prelude.{◌≡◌, ◌<◌, ◌↔◌, IsTrue, length};
ghost use Rattle.union_ask.specs.Apart.{AreApartAmong, ShareLoose, SharesLater};

use cqa_model::Query;
use query_strategy::has_loose;

/// Is some table that isn't strict in both queries?
fn share_loose(first: &Query, second: &Query) -> bool
    ensures { IsTrue result ↔ ShareLoose first.now second.now }
{
    for atom in first.atoms.as_slice() {
        if atom.strict {
            continue;
        }
        if has_loose(second, atom.table) {
            return true;
        }
    }
    false
}

/// Does a part share such a table with a later one of those that are given?
fn shares_later(parts: &[Query], given: &[bool], at: usize) -> bool
    requires there { at < length parts.now }
    requires one_each { length given.now ≡ length parts.now }
    ensures { IsTrue result ↔ SharesLater parts.now given.now at }
{
    for later in at + 1..parts.len() {
        if !given[later] {
            continue;
        }
        if share_loose(&parts[at], &parts[later]) {
            return true;
        }
    }
    false
}

/// Do no two of the parts that are given share such a table?
pub(crate) fn are_apart(parts: &[Query], given: &[bool]) -> bool
    requires { length given.now ≡ length parts.now }
    ensures { IsTrue result ↔ AreApartAmong parts.now given.now }
{
    for at in 0..parts.len() {
        if !given[at] {
            continue;
        }
        if shares_later(parts, given, at) {
            return false;
        }
    }
    true
}
