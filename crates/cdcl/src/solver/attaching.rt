//! How clauses come to watch two of their literals.

ghost use Rattle.std.specs.Prelude.{◌≡◌, ◌<◌, ◌+◌, length, OnOk, IfOk, MatchOption};
ghost use Rattle.search_trail.specs.Trail.{held};
ghost use Rattle.cdcl.specs.Watching.{IsBase};
ghost use Rattle.cdcl.specs.Looking.{IsSameFormula, IsSameAttached, IsWatchful, IsUnattached, IsUntouched, CanWatch, IsPairFor};
ghost use Rattle.cdcl.specs.Visits.{IsConflict};

use super::Solver;
use crate::look::{Watches, watches_of};
use crate::watch::{Pair, code, push_index};
use cnf_form::{Lit, Truth};
use cqa_value::NoMemory;
use search_trail::{literals_at, truth_of};

impl Solver {
    /// Has the next clause watch two of its literals.
    pub(super) fn attach(&mut self, first: Lit, second: Lit) -> Result<(), NoMemory>
        requires watchful { IsWatchful self.old }
        requires pair { CanWatch self.old (IsPairFor self.old first second) first second }
        ensures watchful { OnOk result (IsWatchful self.new) }
        ensures same { IsSameAttached self.old self.new }
        ensures count { OnOk result (length self.new.pairs.items ≡ length self.old.pairs.items + 1) }
    {
        let index = self.pairs.len();
        self.pairs.push(Pair { first, second })?;
        push_index(&mut self.lists, code(first), index)?;
        push_index(&mut self.lists, code(second), index)?;
        Ok(())
    }

    /// Passes over the next clause, which has a literal that is true below all levels.
    pub(super) fn attach_none(&mut self, lit: Lit) -> Result<(), NoMemory>
        requires watchful { IsWatchful self.old }
        requires base { CanWatch self.old (IsBase (held self.old.trail.items) self.old.level_starts.items) lit lit }
        ensures watchful { OnOk result (IsWatchful self.new) }
        ensures same { IsSameAttached self.old self.new }
        ensures count { OnOk result (length self.new.pairs.items ≡ length self.old.pairs.items + 1) }
    {
        self.pairs.push(Pair {
            first: lit,
            second: lit,
        })?;
        Ok(())
    }

    /// Has the next clause watch two of its literals; one of one literal forces it. Gives the clause where it is false.
    fn attach_next(&mut self) -> Result<Option<usize>, NoMemory>
        requires watchful { IsWatchful self.old }
        requires some { length self.old.pairs.items < length self.old.clauses.items }
        requires first { IsUntouched self.old }
        ensures watchful { OnOk result (IsWatchful self.new) }
        ensures first { OnOk result (IsUntouched self.new) }
        ensures same { IsSameFormula self.old self.new }
        ensures conflict { IfOk result (λ r. MatchOption r (length self.new.pairs.items ≡ length self.old.pairs.items + 1) (λ k. IsConflict self.new k)) }
    {
        let index = self.pairs.len();
        match watches_of(literals_at(self.clauses.as_slice(), index)) {
            Watches::None => Ok(Some(index)),
            Watches::One(lit) => {
                match truth_of(self.trail.as_slice(), self.places.as_slice(), lit) {
                    Truth::True => {}
                    Truth::False => return Ok(Some(index)),
                    Truth::Open => self.force(index, lit)?,
                }
                self.attach_none(lit)?;
                Ok(None)
            }
            Watches::Two(first, second) => {
                self.attach(first, second)?;
                Ok(None)
            }
        }
    }

    /// Has all clauses watch their literals, up to one that is false. Gives that clause.
    pub(super) fn attach_all(&mut self) -> Result<Option<usize>, NoMemory>
        requires { IsUnattached self.old }
        ensures watchful { OnOk result (IsWatchful self.new) }
        ensures first { OnOk result (IsUntouched self.new) }
        ensures same { IsSameFormula self.old self.new }
        ensures conflict { IfOk result (λ r. MatchOption r (length self.new.pairs.items ≡ length self.new.clauses.items) (λ k. IsConflict self.new k)) }
    {
        for _index in 0..self.clauses.len() {
            if let Some(conflict) = self.attach_next()? {
                return Ok(Some(conflict));
            }
        }
        Ok(None)
    }
}
