//! A row of an atom that is looked for.

ghost use Rattle.std.specs.Prelude.{◌<◌, length};

use crate::setting::Setting;
use crate::taken_rows::Taken;

/// A row of an atom that is looked for, where rows of others were taken, in whatever order.
#[derive(Clone, Copy)]
pub struct Look<'a> {
    pub setting: &'a Setting<'a, 'a>,
    pub taken: &'a Taken<'a>,
    pub atom: u32,
    pub ghost there: { atom < length setting.now.bound.now.query.now.atoms },
}
