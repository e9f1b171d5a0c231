//! Which learnt clauses are forgotten: those that conflicts met least of late (Eén and Sörensson, 2003).

use cqa_value::NoMemory;
use std::alloc::Global;

/// How many learnt clauses are watched before some are forgotten for the first time.
pub const FIRST_LIMIT: usize = 500;

/// How many more may be watched after each time that some are forgotten (Audemard and Simon, 2009).
const MORE: usize = 50;

/// What a use adds to a clause's activity at first.
const FIRST_STEP: u64 = 1000;
/// Beyond it all activities are scaled down.
const LARGE_STEP: u64 = 1 << 50;

const SCALE: u64 = 1 << 40;

/// How much the learnt clauses were used of late.
#[derive(Drop)]
pub struct Usage {
    /// The clauses before this one are never forgotten.
    permanent: usize,
    /// The activities of the others; 0 for those that are forgotten.
    activities: Vec<u64>,
    /// What a use adds to a clause's activity.
    step: u64,
    /// How many of them are watched, and how many may be.
    watched: usize,
    limit: usize,
}

impl Usage {
    /// No learnt clauses, where those before the place `permanent` are never forgotten; at `usize::MAX` none ever is.
    pub fn new(alloc: Global, permanent: usize) -> Usage {
        Usage {
            permanent,
            activities: Vec::new(alloc),
            step: FIRST_STEP,
            watched: 0,
            limit: if permanent == usize::MAX {
                usize::MAX
            } else {
                FIRST_LIMIT
            },
        }
    }

    /// Adds a learnt clause.
    pub fn push(&mut self) -> Result<(), NoMemory> {
        self.activities.push(self.step)?;
        self.watched = self.watched.saturating_add(1);
        Ok(())
    }

    /// Raises the activity of the clauses whose ids are the hints of a learnt one.
    pub fn raise(&mut self, hints: &[i64]) {
        for hint in hints {
            self.raise_one(*hint);
        }
        self.step = self.step.saturating_add(self.step / 1000);
        if self.step > LARGE_STEP {
            self.scale_down();
        }
    }

    /// A clause that is forgotten stays so.
    fn raise_one(&mut self, hint: i64) {
        if let Ok(id) = usize::try_from(hint)
            && id > self.permanent
            && let Some(activity) = self.activities.get_mut(id - self.permanent - 1)
            && *activity > 0
        {
            *activity = activity.saturating_add(self.step);
        }
    }

    fn scale_down(&mut self) {
        for activity in self.activities.iter_mut() {
            *activity /= SCALE;
        }
        self.step /= SCALE;
    }

    /// Whether there are as many as may be watched.
    pub fn is_full(&self) -> bool {
        self.watched >= self.limit
    }

    /// The activity that half of the watched clauses have.
    pub fn median(&self, alloc: Global) -> Result<u64, NoMemory> {
        let mut activities = Vec::new(alloc);
        for activity in &self.activities {
            if *activity > 0 {
                activities.push(*activity)?;
            }
        }
        activities.sort()?;
        Ok(
            activities
                .get(activities.len() / 2)
                .map_or(0, |activity| *activity),
        )
    }

    /// Whether a clause is as active as that, or permanent.
    pub fn is_used(&self, index: usize, least: u64) -> bool {
        index < self.permanent
            || self
                .activities
                .get(index - self.permanent)
                .is_some_and(|activity| *activity >= least)
    }

    /// Notes that those that are less active are forgotten.
    pub fn forget(&mut self, least: u64) {
        let mut watched = 0usize;
        for activity in self.activities.iter_mut() {
            if *activity < least {
                *activity = 0;
            } else {
                watched = watched.saturating_add(1);
            }
        }
        self.watched = watched;
        self.limit = self.limit.saturating_add(MORE);
    }
}
