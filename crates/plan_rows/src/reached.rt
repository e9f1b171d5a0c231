//! The places of an atom's rows to which rows of later atoms lead: the rows taken tell of the first of these atoms, its rows
//! of the next one, and so on.

ghost use Rattle.std.specs.Prelude.{◌≡◌, ◌<◌, ◌∷◌, ℕ, [], IfSome, OnOk, Contains, length};
ghost use Rattle.std.specs.Option.{option_copied};
ghost use Rattle.std.specs.Ordering.{nat_cmp};
ghost use Rattle.std.specs.List.Sorted.{IsStrictlySortedBy};
ghost use Rattle.cqa_model.specs.Query.{rows_of};
ghost use Rattle.plan_rows.specs.Knowing.{MayFit};
ghost use Rattle.plan_rows.specs.Over.{look_query, look_tables, look_taken, look_rows};
ghost use Rattle.plan_rows.specs.Links.{AreLinks, HasReached, atoms_on};
ghost use Rattle.plan_rows.specs.Places.{AreEnoughPlaces};

use crate::fitting::may_fit;
use crate::links::Link;
use crate::look::Look;
use crate::place_set::PlaceSet;
use crate::places::Places;
use crate::taken_rows::Taken;
use cqa_value::{NoMemory, Row};
use join_access::RowIndex;

/// Adds a place of an atom's rows if the row there may fit the rows taken.
fn add_place(
    look: &Look<'_>,
    row: Option<&Row>,
    at: u32,
    y: &Row,
    found: &mut PlaceSet,
) -> Result<(), NoMemory>
    ensures kept { OnOk result ((p : ℕ) → Contains found.old p → Contains found.new p) }
    ensures added { OnOk result (MayFit (look_query look.now) (option_copied row.entry) (look_taken look.now) look.now.atom y.now → Contains found.new at) }
{
    if !may_fit(look, row, y) {
        return Ok(());
    }
    found.put(at)
}

/// Adds those of these places of an atom's rows whose rows may fit the rows taken.
fn add_places(
    look: &Look<'_>,
    row: Option<&Row>,
    places: &Places<'_>,
    found: &mut PlaceSet,
) -> Result<(), NoMemory>
    requires { AreEnoughPlaces (look_query look.now) (look_tables look.now) (option_copied row) (look_taken look.now) [] look.now.atom (look_rows look.now) places.now }
    ensures kept { OnOk result ((p : ℕ) → Contains found.old p → Contains found.new p) }
    ensures added { OnOk result (HasReached (look_query look.now) (look_tables look.now) (option_copied row.entry) (look_taken look.now) [] look.now.atom found.new) }
{
    let bound = look.setting.bound;
    let rows = bound.rows_of(look.atom);
    let mut at = places.start;
    while at < places.end {
        add_place(look, row, at as u32, rows.get(at), found)?;
        at = places.after(at);
    }
    Ok(())
}

/// Adds the places of an atom's rows that may fit the rows taken.
fn add_fitting<'x>(
    look: &Look<'x>,
    row: Option<&'x Row>,
    path: Option<&'x RowIndex<'x>>,
    found: &mut PlaceSet,
) -> Result<(), NoMemory>
    requires path { IfSome path (λ x. x.now.rows ≡ look_rows look.now) }
    ensures kept { OnOk result ((p : ℕ) → Contains found.old p → Contains found.new p) }
    ensures added { OnOk result (HasReached (look_query look.now) (look_tables look.now) (option_copied row.entry) (look_taken look.now) [] look.now.atom found.new) }
{
    let places = Places::new(look, row, path);
    let added = add_places(look, row, &places, found);
    drop(places);
    added
}

/// Adds the places of an atom's rows to which rows of the links lead.
#[cycle(reached)]
fn add_reached<'x>(
    look: &Look<'x>,
    row: Option<&'x Row>,
    path: Option<&'x RowIndex<'x>>,
    links: &'x [Link<'x>],
    found: &mut PlaceSet,
) -> Result<(), NoMemory>
    requires path { IfSome path (λ x. x.now.rows ≡ look_rows look.now) }
    requires links { AreLinks (look_query look.now) look.now.setting.now.bound.now.db.now links.now }
    ensures kept { OnOk result ((p : ℕ) → Contains found.old p → Contains found.new p) }
    ensures added { OnOk result (HasReached (look_query look.now) (look_tables look.now) (option_copied row.entry) (look_taken look.now) (atoms_on links.now) look.now.atom found.new) }
{
    let Some((link, later)) = links.split_first() else {
        return add_fitting(look, row, path, found);
    };
    let guess = Look {
        setting: look.setting,
        taken: look.taken,
        atom: link.atom,
    };
    let places = Places::new(&guess, row, link.path.as_ref());
    let added = add_guesses(look, row, path, link.atom, &places, later, found);
    drop(places);
    added
}

/// The same for the rows of the first link's atom at these places, with the links behind it.
#[cycle(reached)]
fn add_guesses<'x>(
    look: &Look<'x>,
    row: Option<&'x Row>,
    path: Option<&'x RowIndex<'x>>,
    atom: u32,
    places: &Places<'_>,
    later: &'x [Link<'x>],
    found: &mut PlaceSet,
) -> Result<(), NoMemory>
    requires path { IfSome path (λ x. x.now.rows ≡ look_rows look.now) }
    requires atom { atom < length (look_query look.now).atoms }
    requires places { AreEnoughPlaces (look_query look.now) (look_tables look.now) (option_copied row) (look_taken look.now) [] atom (rows_of (look_query look.now) (look_tables look.now) atom) places.now }
    requires later { AreLinks (look_query look.now) look.now.setting.now.bound.now.db.now later.now }
    ensures kept { OnOk result ((p : ℕ) → Contains found.old p → Contains found.new p) }
    ensures added { OnOk result (HasReached (look_query look.now) (look_tables look.now) (option_copied row.entry) (look_taken look.now) (atom ∷ atoms_on later.now) look.now.atom found.new) }
{
    let bound = look.setting.bound;
    let rows = bound.rows_of(atom);
    let mut place = places.start;
    while place < places.end {
        add_guess(look, row, path, atom, rows.get(place), later, found)?;
        place = places.after(place);
    }
    Ok(())
}

/// The same for one row of the first link's atom, if it may fit.
#[cycle(reached)]
fn add_guess<'x>(
    look: &Look<'x>,
    row: Option<&'x Row>,
    path: Option<&'x RowIndex<'x>>,
    atom: u32,
    z: &Row,
    later: &'x [Link<'x>],
    found: &mut PlaceSet,
) -> Result<(), NoMemory>
    requires path { IfSome path (λ x. x.now.rows ≡ look_rows look.now) }
    requires atom { atom < length (look_query look.now).atoms }
    requires later { AreLinks (look_query look.now) look.now.setting.now.bound.now.db.now later.now }
    ensures kept { OnOk result ((p : ℕ) → Contains found.old p → Contains found.new p) }
    ensures added { OnOk result (MayFit (look_query look.now) (option_copied row.entry) (look_taken look.now) atom z.now →
        HasReached (look_query look.now) (look_tables look.now) (option_copied row.entry) (record { atom = atom; row = z.now } ∷ look_taken look.now) (atoms_on later.now) look.now.atom found.new) }
{
    let guess = Look {
        setting: &*look.setting,
        taken: &*look.taken,
        atom,
    };
    if !may_fit(&guess, row, z) {
        return Ok(());
    }
    let more = Taken::Before(atom, &*z, &*look.taken);
    let on = Look {
        setting: &*look.setting,
        taken: &more,
        atom: look.atom,
    };
    add_reached(&on, row, path, &*later, found)
}

/// The places of an atom's rows to which rows of its links lead, ascending, each once; `None` where memory is refused.
pub fn reached_places<'x>(
    look: &Look<'x>,
    row: Option<&'x Row>,
    path: Option<&'x RowIndex<'x>>,
    links: &'x [Link<'x>],
) -> Option<Vec<u32>>
    requires path { IfSome path (λ x. x.now.rows ≡ look_rows look.now) }
    requires links { AreLinks (look_query look.now) look.now.setting.now.bound.now.db.now links.now }
    ensures ascending { IfSome result (λ places. IsStrictlySortedBy nat_cmp places.items) }
    ensures all { IfSome result (λ places. HasReached (look_query look.now) (look_tables look.now) (option_copied row.entry) (look_taken look.now) (atoms_on links.now) look.now.atom places.items) }
{
    let mut found = PlaceSet::new(look.setting.alloc);
    match add_reached(look, row, path, links, &mut found) {
        Ok(()) => Some(found.listed()),
        Err(_) => {
            drop(found);
            None
        }
    }
}
