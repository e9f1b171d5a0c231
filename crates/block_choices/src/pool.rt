//! Lists of rows in one pool, so that a group of them takes no vector for each.

ghost use Rattle.std.specs.Prelude.{◌≡◌, ◌<◌, ◌≤◌, ◌++◌, ◌∷◌, [], length, OnErr, OnOk, Some, slice_get};
ghost use Rattle.std.specs.List.{slice_range};

use crate::row::BlockRow;
use cqa_value::NoMemory;
use std::alloc::Global;
use std::marker::Model;

/// The places of a list's rows in the pool.
#[derive(Clone, Copy, Debug)]
pub struct Stretch {
    pub start: usize,
    pub end: usize,
}

/// Lists, each a stretch of one pool of rows.
#[derive(Debug, Drop)]
pub struct Lists {
    pool: Vec<BlockRow>,
    stretches: Vec<Stretch>,
}

impl Model for Lists {
    ghost use Rattle.std.specs.Prelude.{List};
    ghost use Rattle.block_choices.specs.declared.row.BlockRow.{BlockRow};
    ghost use Rattle.block_choices.specs.Pools.{lists_of, AreWithin};

    ghost Value = { List (List BlockRow) };

    ghost view = { λ f. lists_of f.pool.items f.stretches.items };

    ghost invariant = { λ f. AreWithin f.pool.items f.stretches.items };
}

/// The rows of a stretch.
fn part(pool: &[BlockRow], stretch: Stretch) -> &[BlockRow]
    requires order { stretch.start ≤ stretch.end }
    requires within { stretch.end ≤ length pool.now }
    ensures { result.now ≡ slice_range pool.now stretch.start stretch.end }
{
    &pool[stretch.start..stretch.end]
}

impl Lists {
    /// No lists.
    pub fn new(alloc: Global) -> Lists
        ensures { result ≡ [] }
    {
        Lists {
            pool: Vec::new(alloc),
            stretches: Vec::new(alloc),
        }
    }

    /// Takes all lists away; their places are kept for others.
    pub fn clear(&mut self)
        ensures { self.new ≡ [] }
    {
        self.stretches.clear();
        self.pool.clear();
    }

    /// Adds a list.
    ///
    /// # Errors
    ///
    /// `NoMemory` where memory is refused; the lists stay as they were then.
    pub fn add(&mut self, names: &[BlockRow]) -> Result<(), NoMemory>
        ensures ok { OnOk result (self.new ≡ self.old ++ names.now ∷ []) }
        ensures err { OnErr result (self.new ≡ self.old) }
    {
        let start = self.pool.len();
        self.pool.extend_from_slice(names)?;
        self.stretches.push(Stretch {
            start,
            end: self.pool.len(),
        })?;
        Ok(())
    }

    /// How many lists there are.
    pub fn len(&self) -> usize
        ensures { result ≡ length self.now }
    {
        self.stretches.len()
    }

    /// The rows of the list at a place.
    pub fn list(&self, at: usize) -> &[BlockRow]
        requires { at < length self.now }
        ensures { slice_get self.now at ≡ Some result.now }
    {
        part(self.pool.as_slice(), self.stretches[at])
    }

    /// How much there is to look through, in rows.
    pub fn weight(&self) -> usize {
        self.pool.len()
    }
}
