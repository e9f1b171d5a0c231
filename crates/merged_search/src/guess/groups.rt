//! Groups of rows that exclude the same rows. A group has two sides, each row of which excludes each row of the other:
//! one variable stands for it, which is true where rows of the first side are kept.

use crate::guess::parts::{Pair, Parts};
use cnf_form::{Cnf, Lit};
use cqa_value::NoMemory;
use std::alloc::Global;

/// Where a row stands.
#[derive(Clone, Copy)]
pub(crate) struct Place {
    /// The variable of the row's group; 0 where it is in no pair.
    pub group: u32,
    /// Whether it is on the first side.
    pub first: bool,
    /// How many rows of its side are before it.
    pub rank: usize,
}

impl Place {
    /// In no group.
    pub(crate) const NONE: Place = Place {
        group: 0,
        first: true,
        rank: 0,
    };

    /// The literal that says that the rows of this side are kept.
    pub(crate) fn lit(self) -> Lit {
        Lit {
            var: self.group,
            positive: self.first,
        }
    }
}

/// How many rows the sides of a group have, and where its pairs begin.
#[derive(Clone, Copy)]
struct Group {
    first: usize,
    second: usize,
    start: usize,
}

impl Group {
    const EMPTY: Group = Group {
        first: 0,
        second: 0,
        start: 0,
    };

    /// Counts a row, and answers how many rows of its side were before it.
    fn count(&mut self, first: bool) -> usize {
        let count = if first {
            &mut self.first
        } else {
            &mut self.second
        };
        let rank = *count;
        *count = rank.saturating_add(1);
        rank
    }
}

/// Keeps the least of the rows that meet a row.
fn meet(least: &mut [Option<u32>], row: u32, other: u32) {
    if let Some(before) = least.get_mut(row as usize) {
        *before = Some(before.map_or(other, |before| before.min(other)));
    }
}

/// Of each row, the least that it excludes.
fn least_of(alloc: Global, vars: u32, pairs: &[Pair]) -> Result<Vec<Option<u32>>, NoMemory> {
    let mut least = vec![in alloc; None; vars as usize + 1]?;
    for pair in pairs {
        meet(&mut least, pair.one, pair.other);
        meet(&mut least, pair.other, pair.one);
    }
    Ok(least)
}

/// The groups of a formula's rows.
#[derive(Drop)]
pub(crate) struct Groups {
    pub parts: Parts,
    /// By the rows' variables. Rows that are never kept are in no group.
    places: Vec<Place>,
    /// By the groups' variables.
    groups: Vec<Group>,
    /// The ids of the pairs of each group: those of each row of the first side with all of the second.
    pairs: Vec<i64>,
}

impl Groups {
    /// No row.
    fn new(alloc: Global, vars: u32) -> Result<Groups, NoMemory> {
        let mut groups = Vec::new(alloc);
        groups.push(Group::EMPTY)?;
        Ok(Groups {
            parts: Parts::new(alloc, vars)?,
            places: Vec::new(alloc),
            groups,
            pairs: Vec::new(alloc),
        })
    }

    /// How many groups there are.
    pub(crate) fn len(&self) -> u32 {
        u32::try_from(self.groups.len())
            .unwrap_or(0)
            .saturating_sub(1)
    }

    /// Where a row stands.
    pub(crate) fn place(&self, row: u32) -> Place {
        self.places
            .get(row as usize)
            .copied()
            .unwrap_or(Place::NONE)
    }

    /// The variable of the group whose least row is given; a group is new with that row.
    fn group(&mut self, least: u32, row: u32) -> Result<u32, NoMemory> {
        if least == row {
            self.groups.push(Group::EMPTY)?;
            Ok(self.len())
        } else {
            Ok(self.place(least).group)
        }
    }

    /// Puts a row on a side of a group.
    fn put(&mut self, group: u32, first: bool) -> Result<(), NoMemory> {
        let rank = self
            .groups
            .get_mut(group as usize)
            .map_or(0, |group| group.count(first));
        self.places.push(Place { group, first, rank })?;
        Ok(())
    }

    /// Puts the next row into the group of its least partner: the least row of each side tells the group.
    fn add(&mut self, row: u32, least: &[Option<u32>]) -> Result<(), NoMemory> {
        let partner = least.get(row as usize).copied().flatten();
        let Some(partner) = partner else {
            self.places.push(Place::NONE)?;
            return Ok(());
        };
        let own = least.get(partner as usize).copied().flatten();
        let own = own.unwrap_or(row);
        let group = self.group(own.min(partner), row)?;
        self.put(group, own < partner)
    }

    /// Puts all rows into groups.
    fn add_all(&mut self, vars: u32, least: &[Option<u32>]) -> Result<(), NoMemory> {
        for row in 0..=vars {
            self.add(row, least)?;
        }
        Ok(())
    }

    /// Has the pairs of each group begin where those of the group before it end, and answers how many there are to be.
    fn lay_out(&mut self) -> usize {
        let mut start = 0usize;
        for group in self.groups.iter_mut() {
            group.start = start;
            start = start.saturating_add(group.first.saturating_mul(group.second));
        }
        start
    }

    /// The place of the pair of two rows.
    fn slot(&self, one: u32, other: u32) -> Option<usize> {
        let (one, other) = (self.place(one), self.place(other));
        if one.group == 0 || one.group != other.group || one.first == other.first {
            return None;
        }
        let group = self.groups.get(one.group as usize)?;
        let (first, second) = if one.first {
            (one, other)
        } else {
            (other, one)
        };
        let row = first.rank.saturating_mul(group.second);
        Some(group.start.saturating_add(row).saturating_add(second.rank))
    }

    /// The id of the pair of two rows; 0 where there is none.
    pub(crate) fn pair(&self, one: u32, other: u32) -> i64 {
        self.slot(one, other)
            .and_then(|slot| self.pairs.get(slot).copied())
            .unwrap_or(0)
    }

    /// Puts a pair in its place, and tells whether there is one for it.
    fn put_pair(&mut self, pair: Pair) -> bool {
        let slot = self.slot(pair.one, pair.other);
        let Some(slot) = slot else {
            return false;
        };
        match self.pairs.get_mut(slot) {
            Some(id) if *id == 0 => {
                *id = pair.id;
                true
            }
            _ => false,
        }
    }

    /// Puts all pairs in their places, and tells whether each row of a side excludes each of the other: then there are as
    /// many pairs as places, and one for each.
    fn put_pairs(&mut self, alloc: Global) -> Result<bool, NoMemory> {
        let count = self.parts.pairs.len();
        if self.lay_out() != count {
            return Ok(false);
        }
        self.pairs = vec![in alloc; 0; count]?;
        for at in 0..count {
            let Some(pair) = self.parts.pairs.get(at).copied() else {
                return Ok(false);
            };
            if !self.put_pair(pair) {
                return Ok(false);
            }
        }
        Ok(true)
    }

    /// The id of the clause that a row isn't kept; 0 where there is none.
    pub(crate) fn exclusion(&self, row: u32) -> i64 {
        self.parts.excluded.get(row as usize).copied().unwrap_or(0)
    }

    /// Takes the rows that are never kept out of their groups.
    fn exclude(&mut self) {
        for (place, excluded) in self.places.iter_mut().zip(self.parts.excluded.iter()) {
            if *excluded != 0 {
                *place = Place::NONE;
            }
        }
    }

    /// Reads a formula, and tells whether its rows are in groups.
    fn read(&mut self, alloc: Global, cnf: &Cnf) -> Result<bool, NoMemory> {
        if !self.parts.take_all(cnf.clauses.as_slice())? {
            return Ok(false);
        }
        let least = least_of(alloc, cnf.vars, self.parts.pairs.as_slice())?;
        self.add_all(cnf.vars, least.as_slice())?;
        let are_groups = self.put_pairs(alloc)?;
        self.exclude();
        Ok(are_groups)
    }

    /// The groups of a formula's rows, where all its clauses and pairs are such.
    pub(crate) fn of(alloc: Global, cnf: &Cnf) -> Result<Option<Groups>, NoMemory> {
        let mut groups = Groups::new(alloc, cnf.vars)?;
        if groups.read(alloc, cnf)? {
            Ok(Some(groups))
        } else {
            Ok(None)
        }
    }
}
