//! A clause over rows that is resolved: its rows, by their groups.

use crate::guess::groups::Groups;
use cqa_value::NoMemory;
use std::alloc::Global;

/// Rows, each once, in a chain for each group.
#[derive(Drop)]
pub(crate) struct Resolvent {
    /// The last row that came into each group; 0 where there is none.
    last: Vec<u32>,
    /// The row of the same group that came before a row.
    before: Vec<u32>,
    is_in: Vec<bool>,
}

impl Resolvent {
    /// No row of so many, in so many groups.
    pub(crate) fn new(alloc: Global, groups: u32, vars: u32) -> Result<Resolvent, NoMemory> {
        Ok(Resolvent {
            last: vec![in alloc; 0; groups as usize + 1]?,
            before: vec![in alloc; 0; vars as usize + 1]?,
            is_in: vec![in alloc; false; vars as usize + 1]?,
        })
    }

    /// Puts a row in, unless it is in.
    pub(crate) fn put(&mut self, groups: &Groups, row: u32) {
        let group = groups.place(row).group as usize;
        let at = row as usize;
        if let Some(is_in) = self.is_in.get_mut(at)
            && !*is_in
            && let Some(last) = self.last.get_mut(group)
            && let Some(before) = self.before.get_mut(at)
        {
            *is_in = true;
            *before = *last;
            *last = row;
        }
    }

    /// Moves the rows of a group out to others.
    pub(crate) fn take(&mut self, group: u32, rows: &mut Vec<u32>) -> Result<(), NoMemory> {
        let Some(last) = self.last.get_mut(group as usize) else {
            return Ok(());
        };
        let mut row = *last;
        *last = 0;
        for _row in 0..self.before.len() {
            if row == 0 {
                break;
            }
            rows.push(row)?;
            if let Some(is_in) = self.is_in.get_mut(row as usize) {
                *is_in = false;
            }
            row = self.before.get(row as usize).copied().unwrap_or(0);
        }
        Ok(())
    }
}
