//! Where rows of an atom are looked for that may fit: among those with the key values that are known, along an index, or at
//! the places to which rows of later atoms lead.

ghost use Rattle.std.specs.Prelude.{◌≡◌, ◌<◌, ◌≤◌, [], IfSome};
ghost use Rattle.std.specs.Option.{option_copied};
ghost use Rattle.plan_rows.specs.Over.{look_query, look_tables, look_taken, look_rows};
ghost use Rattle.plan_rows.specs.Wanted.{IsOfSize, size_once};

use crate::known::known_values;
use crate::links::Link;
use crate::look::Look;
use crate::reached::reached_places;
use crate::wanted::Wanted;
use cqa_value::Row;
use join_access::RowIndex;

/// The places from one to another, and by what rows are looked for among them.
#[derive(Drop)]
pub struct Places<'x> {
    pub start: usize,
    pub end: usize,
    wanted: Wanted<'x>,
    ghost sized: { IsOfSize wanted end } by { size_once wanted end },
}

impl<'x> Places<'x> {
    ghost use Rattle.plan_rows.specs.Links.{AreLinks, atoms_on};
    ghost use Rattle.plan_rows.specs.Places.{AreEnoughPlaces, IsRowPassed};

    /// The places of the rows with the key values that are known.
    fn by_key(look: &Look<'x>, row: Option<&'x Row>) -> Places<'x>
        ensures { AreEnoughPlaces (look_query look.now) (look_tables look.now) (option_copied row.entry) (look_taken look.now) [] look.now.atom (look_rows look.now) result }
    {
        let bound = look.setting.bound;
        let values = known_values(look, row, bound.key_of(look.atom));
        let (start, rows) = bound.rows_with(look.atom, &values);
        Places {
            start: start as usize,
            end: start as usize + rows.len(),
            wanted: Wanted::All,
        }
    }

    /// The places along an index; `None` where there is none, or not all values of its columns are known.
    fn by_index(
        look: &Look<'x>,
        row: Option<&'x Row>,
        path: Option<&'x RowIndex<'x>>,
    ) -> Option<Places<'x>>
        requires path { IfSome path (λ x. x.now.rows ≡ look_rows look.now) }
        ensures { IfSome result (AreEnoughPlaces (look_query look.now) (look_tables look.now) (option_copied row.entry) (look_taken look.now) [] look.now.atom (look_rows look.now)) }
    {
        let index = path?;
        let values = known_values(look, row, index.columns());
        if values.len() != index.columns().len() {
            return None;
        }
        Some(Places {
            start: index.first(&values),
            end: index.len(),
            wanted: Wanted::Indexed(index, values),
        })
    }

    /// Where the rows of an atom are that may fit the rows taken.
    pub fn new(look: &Look<'x>, row: Option<&'x Row>, path: Option<&'x RowIndex<'x>>) -> Places<'x>
        requires path { IfSome path (λ x. x.now.rows ≡ look_rows look.now) }
        ensures { AreEnoughPlaces (look_query look.now) (look_tables look.now) (option_copied row.entry) (look_taken look.now) [] look.now.atom (look_rows look.now) result }
    {
        match Places::by_index(look, row, path) {
            Some(places) => places,
            None => Places::by_key(look, row),
        }
    }

    /// Where the rows of an atom are to which rows of its links lead; `None` where there are no links, or memory is refused.
    fn by_links(
        look: &Look<'x>,
        row: Option<&'x Row>,
        path: Option<&'x RowIndex<'x>>,
        links: &'x [Link<'x>],
    ) -> Option<Places<'x>>
        requires path { IfSome path (λ x. x.now.rows ≡ look_rows look.now) }
        requires links { AreLinks (look_query look.now) look.now.setting.now.bound.now.db.now links.now }
        ensures { IfSome result (AreEnoughPlaces (look_query look.now) (look_tables look.now) (option_copied row.entry) (look_taken look.now) (atoms_on links.now) look.now.atom (look_rows look.now)) }
    {
        if links.is_empty() {
            return None;
        }
        let bound = look.setting.bound;
        let places = reached_places(look, row, path, links)?;
        let wanted = Wanted::Listed(places);
        let end = bound.rows_of(look.atom).len();
        Some(Places {
            start: wanted.first(end),
            end,
            wanted,
        })
    }

    /// Where the rows of an atom are that may fit, as far as rows of its links lead to them.
    pub fn reached(
        look: &Look<'x>,
        row: Option<&'x Row>,
        path: Option<&'x RowIndex<'x>>,
        links: &'x [Link<'x>],
    ) -> Places<'x>
        requires path { IfSome path (λ x. x.now.rows ≡ look_rows look.now) }
        requires links { AreLinks (look_query look.now) look.now.setting.now.bound.now.db.now links.now }
        ensures { AreEnoughPlaces (look_query look.now) (look_tables look.now) (option_copied row.entry) (look_taken look.now) (atoms_on links.now) look.now.atom (look_rows look.now) result }
    {
        if let Some(places) = Places::by_index(look, row, path) {
            return places;
        }
        match Places::by_links(look, row, path, links) {
            Some(places) => places,
            None => Places::by_key(look, row),
        }
    }

    /// A later place, such that no row between is looked for.
    pub fn after(&self, at: usize) -> usize
        requires { at < self.now.end }
        ensures later { at < result }
        ensures within { result ≤ self.now.end }
        ensures passed { IsRowPassed self.now at result }
    {
        self.wanted.after(self.end, at)
    }
}
