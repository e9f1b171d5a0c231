//! What all steps of a search share: the work that may still be done, and marks on blocks.

use crate::best::Fault;
use block_choices::BlockRow;
use std::alloc::Global;

/// The work that is left, and room that is used again.
#[derive(Debug, Drop)]
pub struct Room {
    /// In lists that are looked at.
    budget: u64,
    /// What is left of a list.
    pub left: Vec<BlockRow>,
    /// Of each block the number of its part.
    pub numbers: Vec<u32>,
    /// Of each block itself, or one of its part that stands for it.
    pub heads: Vec<u32>,
    /// Of each block how many lists name it.
    pub counts: Vec<u32>,
}

impl Room {
    /// Room for so many blocks.
    ///
    /// # Errors
    ///
    /// `NoMemory` where memory is refused.
    pub fn new(alloc: Global, blocks: usize, budget: u64) -> Result<Room, Fault> {
        let numbers = vec![in alloc; 0u32; blocks]?;
        let heads = vec![in alloc; 0u32; blocks]?;
        let counts = vec![in alloc; 0u32; blocks]?;
        Ok(Room {
            budget,
            left: Vec::new(alloc),
            numbers,
            heads,
            counts,
        })
    }

    /// Takes the work of so many lists off the budget.
    ///
    /// # Errors
    ///
    /// `Spent` where less is left.
    pub fn spend(&mut self, lists: usize) -> Result<(), Fault> {
        match self.budget.checked_sub(lists as u64) {
            Some(left) => {
                self.budget = left;
                Ok(())
            }
            None => Err(Fault::Spent),
        }
    }
}
