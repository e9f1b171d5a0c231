//! Lists of rows with weights, in one pool.

ghost use Rattle.std.specs.Prelude.{◌≡◌, ◌<◌, ◌++◌, ◌∷◌, [], length, map, OnErr, OnOk};
ghost use Rattle.choice_values.specs.Pairs.{list_at};

use block_choices::{BlockRow, Lists};
use cqa_value::NoMemory;
use std::alloc::Global;
use std::marker::Model;

/// Lists of rows, each with the weight that it adds to a choice that holds it whole.
#[derive(Debug, Drop)]
pub struct WeightedLists {
    lists: Lists,
    weights: Vec<i128>,
}

impl Model for WeightedLists {
    ghost use Rattle.std.specs.Prelude.{◌≡◌, List, length};
    ghost use Rattle.choice_values.specs.Values.{Weighted};
    ghost use Rattle.choice_values.specs.Pairs.{weighted};

    ghost Value = { List Weighted };

    ghost view = { λ f. weighted f.weights.items f.lists };

    ghost invariant = { λ f. length f.weights.items ≡ length f.lists };
}

impl WeightedLists {
    /// No lists.
    pub fn new(alloc: Global) -> WeightedLists
        ensures { result ≡ [] }
    {
        WeightedLists {
            lists: Lists::new(alloc),
            weights: Vec::new(alloc),
        }
    }

    /// Takes all lists away; their places are kept for others.
    pub fn clear(&mut self)
        ensures { self.new ≡ [] }
    {
        self.lists.clear();
        self.weights.clear();
    }

    /// Adds a list.
    ///
    /// # Errors
    ///
    /// `NoMemory` where memory is refused; the lists stay as they were then.
    pub fn add(&mut self, weight: i128, names: &[BlockRow]) -> Result<(), NoMemory>
        ensures ok { OnOk result (self.new ≡ self.old ++ record { weight = weight; names = names.now } ∷ []) }
        ensures err { OnErr result (self.new ≡ self.old) }
    {
        self.weights.push(weight)?;
        let added = self.lists.add(names);
        if added.is_err() {
            self.weights.pop();
        }
        added
    }

    /// The lists without their weights.
    pub fn lists(&self) -> &Lists
        ensures { result.now ≡ map (λ l. l.names) self.now }
    {
        &self.lists
    }

    /// How many lists there are.
    pub fn len(&self) -> usize
        ensures { result ≡ length self.now }
    {
        self.weights.len()
    }

    /// What the list at a place adds to a choice that holds it whole.
    pub fn weight(&self, at: usize) -> i128
        requires { at < length self.now }
        ensures { result ≡ (list_at self.now at).weight }
    {
        self.weights[at]
    }

    /// The rows of the list at a place.
    pub fn names(&self, at: usize) -> &[BlockRow]
        requires { at < length self.now }
        ensures { result.now ≡ (list_at self.now at).names }
    {
        self.lists.list(at)
    }
}
