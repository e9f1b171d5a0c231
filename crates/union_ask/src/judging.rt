//! What is found out of one candidate of a union: by what is known of its parts alone, by a short search, or by its whole formula.
//! What is known of the parts is found out for all candidates at once, the first time that it may spare a search.

ghost use Rattle.std.specs.Prelude.{◌≡◌, ◌≤◌, IfOk, IfSome, length};
ghost use Rattle.join_access.specs.Listing.{names_of};
ghost use Rattle.join_access.specs.declared.witness.TheConstants.{MOST_WITNESSES};
ghost use Rattle.part_search.specs.Judging.{IsScopeOf, IsVerdictOver};
ghost use Rattle.part_search.specs.Lookups.{AreBoundsOf, AreLookupsOf, HasLengthOf, TellCandidates};
ghost use Rattle.part_search.specs.Parts.{AreNamesIn};
ghost use Rattle.union_ask.specs.Knowing.{AreKnownIn, IsSearchOf, IsVerdictOf, SaysCertain};

use crate::known::{KnownRows, known_rows};
use crate::sharing::are_apart;
use cqa_value::{Fail, NoMemory, Row};
use join_witness::{Lookup, TooMany, Witness};
use list_search::{Room, Scope};
use part_search::{BoundParts, Verdict, gather, judge_lists};
use std::alloc::Global;
use table_blocks::Bound;

/// So many conflicts may a search have that is tried before the known rows of the parts are asked for.
const SHORT: u32 = 16;

/// With more witnesses than so many a row's formula is large, even for such a search.
const FEW: usize = 64;

/// By what the candidates of a union are decided, one after the other: of how many conflicts each search is at most, room for a
/// formula, for each part whether the last row is a candidate of it, each part over the database, and the certain rows of each part
/// alone that needs no search, from the first row on that asks for them.
#[derive(Drop)]
pub(crate) struct UnionSearch<'a> {
    pub(crate) budget: u32,
    pub(crate) room: Room,
    pub(crate) given: Vec<bool>,
    pub(crate) bounds: &'a [Bound<'a>],
    pub(crate) known: Option<KnownRows>,
}

impl<'a> UnionSearch<'a> {
    ghost use Rattle.std.specs.Prelude.{◌≡◌};

    /// Searches of at most so many conflicts, before the first row. It takes no memory.
    pub(crate) fn new(
        alloc: Global,
        _parts: &BoundParts<'_>,
        bounds: &'a [Bound<'a>],
        budget: u32,
    ) -> UnionSearch<'a>
        requires { AreBoundsOf _parts.now.db.now _parts.now.queries.now bounds.now }
        ensures search { IsSearchOf _parts.now.db.now _parts.now.queries.now result }
        ensures budget { result.budget ≡ budget }
    {
        UnionSearch {
            budget,
            room: Room::new(alloc),
            given: Vec::new(alloc),
            bounds,
            known: None,
        }
    }
}

/// Whether a candidate is certain, by the known rows of the parts alone; nothing where they don't tell it. A known row of a part is
/// certain for the union. No other row is, where the rows of all parts of which it is a candidate are known and these parts share no
/// table but strict ones.
fn told_by(parts: &BoundParts<'_>, known: &KnownRows, given: &[bool], row: &Row) -> Option<bool>
    requires known { AreKnownIn parts.now.db.now parts.now.queries.now known.now }
    requires given { TellCandidates parts.now.db.now parts.now.queries.now row.now given.now }
    ensures { SaysCertain parts.now.db.now parts.now.queries.now row.now result }
{
    if known.is_among(given, row) {
        return Some(true);
    }
    if !known.are_known(given) {
        return None;
    }
    let is_apart = are_apart(parts.queries, given);
    if is_apart { Some(false) } else { None }
}

/// Has the known rows of the parts made, where they aren't there yet.
fn ask_known(
    alloc: Global,
    _parts: &BoundParts<'_>,
    bounds: &[Bound<'_>],
    known: &mut Option<KnownRows>,
) -> Result<(), NoMemory>
    requires bounds { AreBoundsOf _parts.now.db.now _parts.now.queries.now bounds.now }
    requires known { IfSome known.old (AreKnownIn _parts.now.db.now _parts.now.queries.now) }
    ensures { IfSome known.new (AreKnownIn _parts.now.db.now _parts.now.queries.now) }
{
    if known.is_some() {
        return Ok(());
    }
    *known = Some(known_rows(alloc, bounds)?);
    Ok(())
}

/// Whether the candidate that was looked up last is certain, by the known rows of the parts alone. With a budget of 0 they
/// aren't asked for.
fn told(
    alloc: Global,
    parts: &BoundParts<'_>,
    search: &mut UnionSearch<'_>,
    row: &Row,
) -> Result<Option<bool>, NoMemory>
    requires search { IsSearchOf parts.now.db.now parts.now.queries.now search.old }
    requires given { TellCandidates parts.now.db.now parts.now.queries.now row.now search.old.given.items }
    ensures search { IsSearchOf parts.now.db.now parts.now.queries.now search.new }
    ensures budget { search.new.budget ≡ search.old.budget }
    ensures told { IfOk result (SaysCertain parts.now.db.now parts.now.queries.now row.now) }
{
    if search.budget == 0 {
        return Ok(None);
    }
    ask_known(alloc, parts, search.bounds, &mut search.known)?;
    match &search.known {
        Some(known) => Ok(told_by(parts, known, search.given.as_slice(), row)),
        None => Ok(None),
    }
}

/// Whether the known rows of the parts are asked for before the formula of the candidate that was looked up last is made: where
/// they are there already, where the parts that give it are apart, so that they may tell of it either way, where its formula is large,
/// and where a short search would be the whole one.
fn are_asked_first(parts: &BoundParts<'_>, search: &UnionSearch<'_>, witnesses: usize) -> bool
    requires { length search.now.given.items ≡ length parts.now.queries.now }
{
    search.known.is_some()
        || witnesses > FEW
        || search.budget <= SHORT
        || are_apart(parts.queries, search.given.as_slice())
}

/// Whether a row is certain, where its verdict says so.
fn said_by(verdict: Verdict) -> Option<bool>
    ensures { IfSome result (λ is_certain. IsVerdictOf is_certain verdict) }
{
    match verdict {
        Verdict::Certain => Some(true),
        Verdict::Rejected => Some(false),
        Verdict::Over => None,
        Verdict::Spent { cnf, log } => {
            drop(cnf);
            drop(log);
            None
        }
    }
}

/// Whether the candidate whose witnesses these are is certain, by its formula and a short search; nothing where these don't tell it.
fn told_shortly<'c, 'a: 'c, 'b: 'a>(
    alloc: Global,
    parts: &BoundParts<'b>,
    scope: &'a Scope,
    room: &mut Room,
    lists: &'c [Witness],
    row: &Row,
) -> Result<Option<bool>, NoMemory>
    requires scope { IsScopeOf parts.now.db.now parts.now.queries.now scope.now }
    requires names { AreNamesIn parts.now.queries.now parts.now.db.now row.now (names_of lists.now) }
    requires few { length lists.now ≤ MOST_WITNESSES }
    ensures { IfOk result (SaysCertain parts.now.db.now parts.now.queries.now row.now) }
{
    let verdict = judge_lists(alloc, parts, scope, SHORT, room, lists, row)?;
    Ok(said_by(verdict))
}

/// Whether the candidate whose witnesses these are is certain, by a short search, unless the known rows of the parts are asked first,
/// or by these; nothing where they don't tell it.
fn told_early<'c, 'a: 'c, 'b: 'a>(
    alloc: Global,
    parts: &BoundParts<'b>,
    scope: &'a Scope,
    search: &mut UnionSearch<'_>,
    lists: &'c [Witness],
    row: &Row,
) -> Result<Option<bool>, NoMemory>
    requires scope { IsScopeOf parts.now.db.now parts.now.queries.now scope.now }
    requires search { IsSearchOf parts.now.db.now parts.now.queries.now search.old }
    requires given { TellCandidates parts.now.db.now parts.now.queries.now row.now search.old.given.items }
    requires names { AreNamesIn parts.now.queries.now parts.now.db.now row.now (names_of lists.now) }
    requires few { length lists.now ≤ MOST_WITNESSES }
    ensures search { IsSearchOf parts.now.db.now parts.now.queries.now search.new }
    ensures budget { search.new.budget ≡ search.old.budget }
    ensures told { IfOk result (SaysCertain parts.now.db.now parts.now.queries.now row.now) }
{
    if are_asked_first(parts, search, lists.len()) {
        return told(alloc, parts, search, row);
    }
    match told_shortly(alloc, parts, scope, &mut search.room, lists, row)? {
        Some(is_certain) => Ok(Some(is_certain)),
        None => told(alloc, parts, search, row),
    }
}

/// What is found out of a candidate of which it is known whether it is certain.
fn verdict_of(is_certain: bool) -> Verdict
    ensures { IsVerdictOf is_certain result }
{
    if is_certain {
        Verdict::Certain
    } else {
        Verdict::Rejected
    }
}

/// What is found out of the candidate whose witnesses these are.
fn judge_gathered<'c, 'a: 'c, 'b: 'a>(
    alloc: Global,
    parts: &BoundParts<'b>,
    scope: &'a Scope,
    search: &mut UnionSearch<'_>,
    lists: &'c [Witness],
    row: &Row,
) -> Result<Verdict, NoMemory>
    requires scope { IsScopeOf parts.now.db.now parts.now.queries.now scope.now }
    requires search { IsSearchOf parts.now.db.now parts.now.queries.now search.old }
    requires given { TellCandidates parts.now.db.now parts.now.queries.now row.now search.old.given.items }
    requires names { AreNamesIn parts.now.queries.now parts.now.db.now row.now (names_of lists.now) }
    requires few { length lists.now ≤ MOST_WITNESSES }
    ensures search { IsSearchOf parts.now.db.now parts.now.queries.now search.new }
    ensures budget { search.new.budget ≡ search.old.budget }
    ensures verdict { IfOk result (IsVerdictOver parts.now.db.now scope.now.frame.tables parts.now.queries.now row.now search.old.budget) }
{
    match told_early(alloc, parts, scope, search, lists, row)? {
        Some(is_certain) => Ok(verdict_of(is_certain)),
        None => judge_lists(
            alloc,
            parts,
            scope,
            search.budget,
            &mut search.room,
            lists,
            row,
        ),
    }
}

/// What is found out of one row, by what is known of the parts alone, or by searches of at most as many conflicts each as the
/// search has.
///
/// # Errors
///
/// `NoMemory` where memory is refused.
pub(crate) fn judge_candidate<'a, 'b: 'a>(
    alloc: Global,
    parts: &BoundParts<'b>,
    scope: &'a Scope,
    lookups: &mut [Lookup<'_>],
    search: &mut UnionSearch<'_>,
    row: &Row,
) -> Result<Verdict, NoMemory>
    requires scope { IsScopeOf parts.now.db.now parts.now.queries.now scope.now }
    requires lookups { AreLookupsOf parts.now.db.now parts.now.queries.now lookups.old }
    requires search { IsSearchOf parts.now.db.now parts.now.queries.now search.old }
    requires long { HasLengthOf parts.now.queries.now row.now }
    ensures lookups { AreLookupsOf parts.now.db.now parts.now.queries.now lookups.new }
    ensures search { IsSearchOf parts.now.db.now parts.now.queries.now search.new }
    ensures budget { search.new.budget ≡ search.old.budget }
    ensures verdict { IfOk result (IsVerdictOver parts.now.db.now scope.now.frame.tables parts.now.queries.now row.now search.old.budget) }
{
    match gather(alloc, parts, lookups, row, &mut search.given) {
        Ok(lists) => {
            let verdict = judge_gathered(alloc, parts, scope, search, lists.as_slice(), row);
            drop(lists);
            verdict
        }
        Err(Fail::Refused(TooMany)) => Ok(Verdict::Over),
        Err(Fail::NoMemory) => Err(NoMemory),
    }
}
