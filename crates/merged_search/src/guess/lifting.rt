//! A log over groups, carried over to the rows. Each of its steps is a chain of clauses that force groups, up to one that is
//! false: the same is said of rows by the clauses that those stand for, resolved with the pairs of a group from the last forced
//! group to the first.

use crate::guess::additions::Additions;
use crate::guess::groups::Groups;
use crate::guess::needed::needed_of;
use crate::guess::parts::place_of;
use crate::guess::resolvent::Resolvent;
use crate::guess::rows::RowClauses;
use crate::guess::values::{Forced, Look, Values};
use cnf_form::{Lit, Log, Step};
use cqa_value::NoMemory;
use std::alloc::Global;

/// What carrying a step over comes to.
#[derive(Clone, Copy, PartialEq, Eq)]
enum Lifted {
    Learnt,
    /// The empty clause is learnt.
    Refuted,
    /// The step's hints don't lead to a clause that is false.
    Lost,
}

/// The row, where there is one alone.
fn one_of(rows: &[u32]) -> Option<u32> {
    if rows.len() == 1 { Some(rows[0]) } else { None }
}

fn kept(row: u32) -> Lit {
    Lit {
        var: row,
        positive: true,
    }
}

/// Appends the literals that rows are kept, but for those that never are.
fn append_kept(groups: &Groups, rows: &[u32], lits: &mut Vec<Lit>) -> Result<(), NoMemory> {
    for row in rows {
        if groups.exclusion(*row) == 0 {
            lits.push(kept(*row))?;
        }
    }
    Ok(())
}

/// Appends the ids by which rows are never kept.
fn append_exclusions(groups: &Groups, rows: &[u32], hints: &mut Vec<i64>) -> Result<(), NoMemory> {
    for row in rows {
        let id = groups.exclusion(*row);
        if id != 0 {
            hints.push(id)?;
        }
    }
    Ok(())
}

/// Appends the ids of the pairs of a row with others.
fn append_pairs(
    groups: &Groups,
    row: u32,
    others: &[u32],
    hints: &mut Vec<i64>,
) -> Result<(), NoMemory> {
    for other in others {
        hints.push(groups.pair(row, *other))?;
    }
    Ok(())
}

/// A log over rows in the making.
#[derive(Drop)]
struct Lifting {
    /// The clauses over rows of those over groups so far.
    clauses: RowClauses,
    log: Additions,
    values: Values,
    resolvent: Resolvent,
    /// The rows of the resolvent that a forced group excludes.
    met: Vec<u32>,
    /// The rows of a forced group in the clause that forces it, and the other rows of that clause.
    forcing: Vec<u32>,
    rest: Vec<u32>,
    /// The hints of the step, the last first, and those by which rows are never kept.
    hints: Vec<i64>,
    exclusions: Vec<i64>,
    /// The literals and hints of a clause that is added.
    lits: Vec<Lit>,
    lemma_hints: Vec<i64>,
}

impl Lifting {
    /// Before the first step, over the clauses of blocks.
    fn new(
        alloc: Global,
        groups: &Groups,
        vars: u32,
        clauses: RowClauses,
        log: Additions,
    ) -> Result<Lifting, NoMemory> {
        Ok(Lifting {
            clauses,
            log,
            values: Values::new(alloc, groups.len())?,
            resolvent: Resolvent::new(alloc, groups.len(), vars)?,
            met: Vec::new(alloc),
            forcing: Vec::new(alloc),
            rest: Vec::new(alloc),
            hints: Vec::new(alloc),
            exclusions: Vec::new(alloc),
            lits: Vec::new(alloc),
            lemma_hints: Vec::new(alloc),
        })
    }

    /// Forces groups by the clauses of hints, up to one that is false, whose place is answered.
    fn propagate(&mut self, groups: &Groups, hints: &[i64]) -> Result<Option<usize>, NoMemory> {
        for hint in hints {
            let place = place_of(*hint);
            match self.values.look(groups, self.clauses.rows(place)) {
                Look::Holds => {}
                Look::Forces(lit) => self.values.force(lit, place)?,
                Look::AllFalse => return Ok(Some(place)),
            }
        }
        Ok(None)
    }

    /// Puts the rows beside the forcing ones into the resolvent.
    fn put_rest(&mut self, groups: &Groups) {
        for row in &self.rest {
            if groups.exclusion(*row) == 0 {
                self.resolvent.put(groups, *row);
            }
        }
    }

    /// Begins with a clause that is false.
    fn begin(&mut self, groups: &Groups, place: usize) -> Result<(), NoMemory> {
        self.hints.clear();
        self.exclusions.clear();
        self.rest.clear();
        self.rest.extend_from_slice(self.clauses.rows(place))?;
        self.put_rest(groups);
        append_exclusions(groups, self.rest.as_slice(), &mut self.exclusions)?;
        self.hints.push(self.clauses.id(place))?;
        Ok(())
    }

    /// Parts the rows of the clause that forces a literal.
    fn split(&mut self, groups: &Groups, forced: Forced) -> Result<(), NoMemory> {
        self.forcing.clear();
        self.rest.clear();
        for row in self.clauses.rows(forced.reason) {
            if groups.place(*row).group == forced.lit.var {
                self.forcing.push(*row)?;
            } else {
                self.rest.push(*row)?;
            }
        }
        Ok(())
    }

    /// Begins the clause that a row isn't kept unless one of the rest is, and its hints.
    fn begin_lemma(&mut self, groups: &Groups, row: u32) -> Result<(), NoMemory> {
        self.lits.clear();
        append_kept(groups, self.rest.as_slice(), &mut self.lits)?;
        self.lits.push(kept(row).opposite())?;
        self.lemma_hints.clear();
        append_exclusions(groups, self.rest.as_slice(), &mut self.lemma_hints)
    }

    /// Adds that a row isn't kept, unless one of the rest is: it meets all the forcing rows. The id is answered.
    fn add_lemma(
        &mut self,
        alloc: Global,
        groups: &Groups,
        row: u32,
        id: i64,
    ) -> Result<i64, NoMemory> {
        self.begin_lemma(groups, row)?;
        append_pairs(groups, row, self.forcing.as_slice(), &mut self.lemma_hints)?;
        self.lemma_hints.push(id)?;
        self.log
            .add(alloc, self.lits.as_slice(), self.lemma_hints.as_slice())
    }

    /// Adds a lemma for each row that is met, as far as the limits go, and has them as hints.
    fn add_lemmas(&mut self, alloc: Global, groups: &Groups, id: i64) -> Result<(), NoMemory> {
        for at in 0..self.met.len() {
            let Some(row) = self.met.get(at).copied() else {
                break;
            };
            if self.log.are_too_many() {
                break;
            }
            let lemma = self.add_lemma(alloc, groups, row, id)?;
            self.hints.push(lemma)?;
        }
        Ok(())
    }

    /// Has a clause that forces one row as a hint, and then the pairs of that row with those that it meets.
    fn append_forcing(&mut self, groups: &Groups, row: u32, id: i64) -> Result<(), NoMemory> {
        append_pairs(groups, row, self.met.as_slice(), &mut self.hints)?;
        self.hints.push(id)?;
        append_exclusions(groups, self.rest.as_slice(), &mut self.exclusions)
    }

    /// Resolves with the clause that forces a literal, where the resolvent has rows that are excluded by it.
    fn resolve(&mut self, alloc: Global, groups: &Groups, forced: Forced) -> Result<(), NoMemory> {
        self.met.clear();
        self.resolvent.take(forced.lit.var, &mut self.met)?;
        if self.met.is_empty() {
            return Ok(());
        }
        self.split(groups, forced)?;
        self.put_rest(groups);
        let id = self.clauses.id(forced.reason);
        match one_of(self.forcing.as_slice()) {
            Some(row) => self.append_forcing(groups, row, id),
            None => self.add_lemmas(alloc, groups, id),
        }
    }

    /// Resolves with all clauses that forced something, the last first.
    fn resolve_all(&mut self, alloc: Global, groups: &Groups) -> Result<(), NoMemory> {
        let count = self.values.forced.len();
        for back in 0..count {
            let forced = self.values.forced.get(count - 1 - back).copied();
            if let Some(forced) = forced {
                self.resolve(alloc, groups, forced)?;
            }
        }
        Ok(())
    }

    /// Takes the rows that are left in the groups of a step's clause, and makes a clause of them.
    fn take_left(&mut self, groups: &Groups, clause: &[Lit]) -> Result<(), NoMemory> {
        self.met.clear();
        for lit in clause {
            self.resolvent.take(lit.var, &mut self.met)?;
        }
        self.lits.clear();
        append_kept(groups, self.met.as_slice(), &mut self.lits)
    }

    /// Puts the hints of a step in order.
    fn order_hints(&mut self) -> Result<(), NoMemory> {
        self.hints.extend_from_slice(self.exclusions.as_slice())?;
        self.hints.reverse();
        Ok(())
    }

    /// Adds the rows that are left in the groups of a step's clause.
    fn learn(
        &mut self,
        alloc: Global,
        groups: &Groups,
        clause: &[Lit],
    ) -> Result<Lifted, NoMemory> {
        self.take_left(groups, clause)?;
        self.order_hints()?;
        let id = self
            .log
            .add(alloc, self.lits.as_slice(), self.hints.as_slice())?;
        self.clauses.add(id, self.met.as_slice())?;
        Ok(if self.met.is_empty() {
            Lifted::Refuted
        } else {
            Lifted::Learnt
        })
    }

    /// Carries a step over.
    fn lift(
        &mut self,
        alloc: Global,
        groups: &Groups,
        clause: &[Lit],
        hints: &[i64],
    ) -> Result<Lifted, NoMemory> {
        self.values.deny(clause);
        let Some(conflict) = self.propagate(groups, hints)? else {
            return Ok(Lifted::Lost);
        };
        self.begin(groups, conflict)?;
        self.resolve_all(alloc, groups)?;
        self.values.clear(clause);
        self.learn(alloc, groups, clause)
    }

    /// Carries a step over where it is needed.
    fn lift_needed(
        &mut self,
        alloc: Global,
        groups: &Groups,
        step: &Step,
        needed: bool,
    ) -> Result<Lifted, NoMemory> {
        match step {
            Step::Add { clause, hints, .. } if needed => {
                self.lift(alloc, groups, clause.lits.as_slice(), hints.as_slice())
            }
            _ => {
                self.clauses.add(0, &[])?;
                Ok(Lifted::Learnt)
            }
        }
    }

    /// Carries steps over up to the empty clause, and tells whether it is reached within the limits.
    fn lift_all(
        &mut self,
        alloc: Global,
        groups: &Groups,
        steps: &[Step],
        needed: &[bool],
    ) -> Result<bool, NoMemory> {
        for (step, needed) in steps.iter().zip(needed.iter()) {
            let lifted = self.lift_needed(alloc, groups, step, *needed)?;
            if lifted == Lifted::Lost || self.log.are_too_many() {
                return Ok(false);
            }
            if lifted == Lifted::Refuted {
                return Ok(true);
            }
        }
        Ok(false)
    }

    /// The log over rows of steps over groups; `None` where it isn't reached within the limits.
    fn log_of(
        &mut self,
        alloc: Global,
        groups: &Groups,
        steps: &[Step],
    ) -> Result<Option<Log>, NoMemory> {
        let needed = needed_of(alloc, self.clauses.len(), steps)?;
        if self.lift_all(alloc, groups, steps, needed.as_slice())? {
            Ok(Some(Log {
                steps: self.log.take_steps(alloc),
            }))
        } else {
            Ok(None)
        }
    }
}

/// The log over rows of a log over their groups, for the clauses of whose blocks the rows are given; `None` where it is longer
/// than the limits.
pub(crate) fn lift_log(
    alloc: Global,
    groups: &Groups,
    vars: u32,
    clauses: RowClauses,
    additions: Additions,
    log: &Log,
) -> Result<Option<Log>, NoMemory> {
    let mut lifting = Lifting::new(alloc, groups, vars, clauses, additions)?;
    let lifted = lifting.log_of(alloc, groups, log.steps.as_slice());
    drop(lifting);
    lifted
}
