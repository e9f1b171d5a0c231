//! The variables of a query, by the class of each column.

ghost use Rattle.std.specs.Prelude.{◌<◌, All};
ghost use Rattle.cqa_model.specs.declared.limits.TheConstants.{COLUMN_NUMBERS};

use crate::naming::number_of;
use crate::{COLUMN_NUMBERS, ColRef};

/// The variables of a query. Each is named by its class, the least number of its columns, where a column's number is
/// `MOST_COLUMNS` times its atom's place plus its own.
#[derive(Clone, Copy)]
pub struct Variables {
    pub(crate) class: [u8; COLUMN_NUMBERS],
    pub(crate) constant: [bool; COLUMN_NUMBERS],
    pub ghost small: { All (λ k. k < COLUMN_NUMBERS) class },
}

impl Variables {
    ghost use Rattle.std.specs.Prelude.{◌≡◌, ◌↔◌, IsTrue};
    ghost use Rattle.cqa_value.specs.declared.row.TheConstants.{MOST_COLUMNS};
    ghost use Rattle.cqa_model.specs.declared.limits.TheConstants.{MOST_ATOMS};
    ghost use Rattle.cqa_model.specs.Naming.{class_at, IsConstantClass};

    /// The class of a column's variable.
    pub fn class_of(&self, col: ColRef) -> u8
        requires atom { col.atom < MOST_ATOMS }
        requires col { col.col < MOST_COLUMNS }
        ensures is { result ≡ class_at self.now col }
        ensures small { result < COLUMN_NUMBERS }
    {
        self.class[number_of(col)]
    }

    /// Is the variable of this class a constant?
    pub fn is_constant(&self, class: u8) -> bool
        requires { class < COLUMN_NUMBERS }
        ensures { IsTrue result ↔ IsConstantClass self.now class }
    {
        self.constant[class as usize]
    }
}
