//! The later atoms by which an atom is linked to the rows taken.

ghost use Rattle.std.specs.Prelude.{◌≡◌, ℕ, ◌∷◌, ◌++◌, List, IsTrue, Contains};
ghost use Rattle.plan_rows.specs.declared.links.Link.{Link as Linking};
ghost use Rattle.plan_rows.specs.Links.{atoms_on, links_at};

use cqa_value::Items;
use join_access::RowIndex;

/// A later atom by which another is linked to the rows taken, and an index of its table by what is told of it then, if there
/// is one.
#[derive(Drop)]
pub struct Link<'a> {
    pub atom: u32,
    pub path: Option<RowIndex<'a>>,
}

/// The links of an atom; none where there is no list of them.
pub(crate) fn links_on<'x, 'a>(ways: &'x [Items<Link<'a>>], atom: u32) -> &'x [Link<'a>]
    ensures { result.now ≡ links_at ways.now atom }
{
    let at = atom as usize;
    if at < ways.len() {
        ways[at].as_slice()
    } else {
        &[]
    }
}

/// Whether each of these links is one of some atoms.
fn are_among(links: &[Link<'_>], atoms: &[u32]) -> bool
    ensures { IsTrue result → (l : Linking) → Contains links.now l → Contains atoms.now l.atom }
{
    for link in links {
        if !atoms.contains(&link.atom) {
            return false;
        }
    }
    true
}

/// Whether the links of each atom are behind it in an order.
pub(crate) fn are_behind(order: &[u32], ways: &[Items<Link<'_>>]) -> bool
    ensures { IsTrue result → (front rest : List ℕ) (F : ℕ) → order.now ≡ front ++ F ∷ rest → (G : ℕ) → Contains (atoms_on (links_at ways.now F)) G → Contains rest G }
{
    for at in 0..order.len() {
        let (_, rest) = order.split_at(at + 1);
        if !are_among(links_on(ways, order[at]), rest) {
            return false;
        }
    }
    true
}
