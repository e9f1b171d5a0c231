//! A group that is under way.

ghost use Rattle.std.specs.Prelude.{◌≡◌, ◌++◌, ◌∷◌, [], Err, IfOk, MatchResult, Ok};
ghost use Rattle.block_lists.specs.Judging.{IsJudged, IsProved};
ghost use Rattle.cnf_form.specs.Lines.{line_of, tokens};
ghost use Rattle.choice_values.specs.Values.{IsGreatest, IsLeast, Weighted};
ghost use Rattle.group_text.specs.Groups.{list_of};
ghost use Rattle.group_text.specs.Weights.{names_in};
ghost use Rattle.group_text.specs.Sizes.{sizes_of};

use crate::sizes::read_sizes;
use crate::weights::read_list;
use crate::{Fault, Wanted};
use block_choices::BlockRow;
use block_lists::{Judged, MOST_GROUP_LISTS, Proved, Room, judge, prove};
use choice_values::{Best, WeightedLists, greatest, least};
use cqa_value::NoMemory;
use std::alloc::Global;
use std::marker::Model;

/// The sizes of a group's blocks, and its lists so far. Its room is used again for each group.
#[derive(Drop)]
pub struct Group {
    sizes: Vec<u32>,
    lists: WeightedLists,
    named: usize,
}

impl Model for Group {
    ghost use Rattle.group_text.specs.Groups.{Draft};
    ghost use Rattle.group_text.specs.Fitting.{IsFit};

    ghost Value = { Draft };

    ghost view = { λ g. record { sizes = g.sizes.items; lists = g.lists } };

    ghost invariant = { λ g. IsFit g.sizes.items g.lists g.named };
}

impl Group {
    /// A group of no blocks and no lists.
    pub fn new(alloc: Global) -> Group
        ensures { result ≡ record { sizes = []; lists = [] } }
    {
        Group {
            sizes: Vec::new(alloc),
            lists: WeightedLists::new(alloc),
            named: 0,
        }
    }

    /// Takes all blocks and lists away.
    fn clear(&mut self)
        ensures { self.new ≡ record { sizes = []; lists = [] } }
    {
        self.lists.clear();
        self.sizes.clear();
        self.named = 0;
    }

    /// Begins a group of the sizes that the tokens of a line tell, or gives their first fault.
    ///
    /// # Errors
    ///
    /// `NoMemory` where memory is refused.
    pub fn begin(&mut self, line: &[u8]) -> Result<Result<(), Fault>, NoMemory>
        ensures { IfOk result (λ read. MatchResult read
            (λ _. (sizes_of (tokens (line_of line.now)) ≡ Ok self.new.sizes) × (self.new.lists ≡ []))
            (λ fault. sizes_of (tokens (line_of line.now)) ≡ Err fault)) }
    {
        self.clear();
        match read_sizes(line, &mut self.sizes) {
            Ok(Ok(())) => Ok(Ok(())),
            faulty => {
                self.sizes.clear();
                faulty
            }
        }
    }

    /// Adds the list that the tokens of a line tell, or gives their first fault. Its rows pass through `rows`.
    ///
    /// # Errors
    ///
    /// `NoMemory` where memory is refused.
    pub fn add(
        &mut self,
        wanted: Wanted,
        line: &[u8],
        rows: &mut Vec<BlockRow>,
    ) -> Result<Result<(), Fault>, NoMemory>
        ensures { IfOk result (λ read. MatchResult read
            (λ _. (list : Weighted) × (list_of wanted self.old (tokens (line_of line.now)) ≡ Ok list) × (self.new ≡ record self.old { lists = self.old.lists ++ list ∷ [] }))
            (λ fault. list_of wanted self.old (tokens (line_of line.now)) ≡ Err fault)) }
    {
        if self.lists.len() >= MOST_GROUP_LISTS {
            return Ok(Err(Fault::ManyLists));
        }
        match read_list(wanted, self.sizes.as_slice(), self.named, line, rows)? {
            Err(fault) => Ok(Err(fault)),
            Ok(weight) => {
                self.lists.add(weight as i128, rows.as_slice())?;
                self.named += rows.len();
                Ok(Ok(()))
            }
        }
    }

    /// Whether each choice of a row of each block holds a list whole, or a choice that holds none, which is left in the room.
    ///
    /// # Errors
    ///
    /// `NoMemory` where memory is refused.
    pub fn judge(&self, alloc: Global, budget: u32, room: &mut Room) -> Result<Judged, NoMemory>
        ensures { IfOk result (IsJudged self.now.sizes (names_in self.now.lists) budget room.new.choice.items) }
    {
        judge(
            alloc,
            self.sizes.as_slice(),
            self.lists.lists(),
            budget,
            room,
        )
    }

    /// The same, with a refutation.
    ///
    /// # Errors
    ///
    /// `NoMemory` where memory is refused.
    pub fn prove(&self, alloc: Global, budget: u32, room: &mut Room) -> Result<Proved, NoMemory>
        ensures { IfOk result (IsProved self.now.sizes (names_in self.now.lists) budget room.new.choice.items) }
    {
        prove(
            alloc,
            self.sizes.as_slice(),
            self.lists.lists(),
            budget,
            room,
        )
    }

    /// A choice of the least value.
    ///
    /// # Errors
    ///
    /// `Spent` where a look at so many lists doesn't do, and `NoMemory` where memory is refused.
    pub fn least(&self, alloc: Global, budget: u32) -> Result<Best, choice_values::Fault>
        ensures { IfOk result (IsLeast self.now.sizes self.now.lists) }
    {
        least(alloc, self.sizes.as_slice(), &self.lists, budget as u64)
    }

    /// A choice of the greatest value.
    ///
    /// # Errors
    ///
    /// `Spent` where a look at so many lists doesn't do, and `NoMemory` where memory is refused.
    pub fn greatest(&self, alloc: Global, budget: u32) -> Result<Best, choice_values::Fault>
        ensures { IfOk result (IsGreatest self.now.sizes self.now.lists) }
    {
        greatest(alloc, self.sizes.as_slice(), &self.lists, budget as u64)
    }
}
