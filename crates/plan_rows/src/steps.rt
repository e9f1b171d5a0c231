//! How far a plan was gone: rows of its first atoms were taken, and the others are left.

ghost use Rattle.std.specs.Prelude.{◌≡◌, ◌<◌, ◌∷◌, ℕ, Contains, length};
ghost use Rattle.plan_rows.specs.Taking.{placed};
ghost use Rattle.plan_rows.specs.Underway.{IsUnderway, underway_once};

use crate::course::Course;
use crate::links::{Link, links_on};
use crate::look::Look;
use crate::taken_rows::Taken;

/// A rest of a plan, where rows of the atoms before it were taken.
#[derive(Clone, Copy)]
pub struct Rest<'a> {
    pub course: &'a Course<'a, 'a>,
    pub taken: &'a Taken<'a>,
    pub plan: &'a [u32],
    pub ghost underway: { IsUnderway course.now (placed taken.now) plan.now } by { underway_once course.now (placed taken.now) plan.now },
}

/// The next atom of a plan and the rest behind it, where rows of the atoms before it were taken.
#[derive(Clone, Copy)]
pub struct Step<'x, 'a> {
    pub course: &'x Course<'x, 'a>,
    pub taken: &'x Taken<'x>,
    pub atom: u32,
    pub rest: &'x [u32],
    pub ghost underway: { IsUnderway course.now (placed taken.now) (atom ∷ rest.now) } by { underway_once course.now (placed taken.now) (atom ∷ rest.now) },
    pub ghost there: { atom < length course.now.setting.bound.now.query.now.atoms },
}

impl<'x, 'a> Step<'x, 'a> {
    ghost use Rattle.plan_rows.specs.Over.{query_of, rows_before};
    ghost use Rattle.plan_rows.specs.Links.{AreLinks, atoms_on};

    /// A row of the next atom is looked for.
    pub fn look(&self) -> Look<'x>
        ensures setting { result.setting.now ≡ self.now.course.now.setting }
        ensures taken { placed result.taken.now ≡ rows_before self.now }
        ensures atom { result.atom ≡ self.now.atom }
    {
        let course = self.course;
        Look {
            setting: &course.setting,
            taken: self.taken,
            atom: self.atom,
        }
    }

    /// The later atoms by which the next one is linked to the rows taken; none where it is linked to them itself, or no links
    /// were made.
    pub fn links(&self) -> &'x [Link<'x>]
        ensures links { AreLinks (query_of self.now) self.now.course.now.setting.bound.now.db.now result.now }
        ensures behind { (F : ℕ) → Contains (atoms_on result.now) F → Contains self.now.rest.now F }
    {
        links_on(self.course.ways, self.atom)
    }
}
