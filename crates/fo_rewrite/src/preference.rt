//! Which of the atoms that none attacks is best taken next.

ghost use Rattle.std.specs.Prelude.{◌<◌, length};
ghost use Rattle.cqa_model.specs.declared.limits.TheConstants.{MOST_ATOMS};
ghost use Rattle.key_closure.specs.Sets.{HasAtom};

use crate::known::{Facts, Known};
use crate::linking::Joined;
use cqa_model::MOST_ATOMS;
use key_closure::{AtomSet, Named};

/// How the next atom is chosen among those that none attacks.
#[derive(Clone, Copy)]
pub(crate) enum Choice {
    /// The first.
    First,

    /// The one that is best for evaluation; of those that joins link alike to the atoms taken and to the answer, one comes
    /// first where it is given.
    Preferred { first: Option<u32> },
}

/// The rank of an atom, less being better.
#[derive(Clone, Copy, PartialEq, Eq, PartialOrd, Ord)]
struct Rank {
    /// How joins link it to the atoms taken.
    link: Joined,

    /// Joins link it to no answer column.
    outside: bool,

    /// It isn't the one that comes first of those that are linked alike.
    later: bool,

    /// About how many of its rows agree with what is known, in bits.
    rows: i32,

    /// It has no answer column: rows taken before are remembered only once the answer is settled.
    silent: bool,
}

/// What atoms are ranked by.
#[derive(Drop)]
struct Ranking<'a> {
    known: Known<'a>,
    facts: &'a Facts<'a>,

    /// The atom that comes first of those that are linked alike.
    first: Option<u32>,
}

impl Ranking<'_> {
    /// The rank of an atom.
    fn rank(&self, atom: u32) -> Rank
        requires { atom < length self.now.known.query.now.atoms }
    {
        Rank {
            link: self.known.link(atom),
            outside: !self.facts.inside.has(atom),
            later: self.first != Some(atom),
            rows: self.known.row_bits(atom),
            silent: !self.facts.answered.has(atom),
        }
    }
}

/// The atom of a set outside another that ranks first; of those that rank alike the first.
pub(crate) fn preferred<'x>(
    named: &'x Named<'x>,
    facts: &'x Facts<'x>,
    left: &AtomSet,
    attacked: &AtomSet,
    first: Option<u32>,
    start: u32,
) -> u32
    requires there { start < length named.now.query.now.atoms }
    requires free { (start < MOST_ATOMS) × HasAtom left.now start × (HasAtom attacked.now start → ⊥) }
    ensures { (result < MOST_ATOMS) × HasAtom left.now result × (HasAtom attacked.now result → ⊥) }
{
    if is_alone(left, attacked, start) {
        return start;
    }
    let ranking = Ranking {
        known: Known::new(named, facts, &outside(left)),
        facts,
        first,
    };
    let mut best = start;
    let mut least = ranking.rank(start);
    for atom in 0..named.query.atoms.len() as u32 {
        let is_open = left.has(atom) && !attacked.has(atom);
        if is_open {
            let rank = ranking.rank(atom);
            if rank < least {
                best = atom;
                least = rank;
            }
        }
    }
    best
}

/// Whether no atom of a set but one is outside another set.
fn is_alone(set: &AtomSet, other: &AtomSet, atom: u32) -> bool {
    for place in 0..MOST_ATOMS {
        if place != atom && set.has(place) && !other.has(place) {
            return false;
        }
    }
    true
}

/// The places of atoms that are outside a set.
fn outside(set: &AtomSet) -> AtomSet {
    let mut others = AtomSet::new();
    for atom in 0..MOST_ATOMS {
        others.insert_if(atom, !set.has(atom));
    }
    others
}
