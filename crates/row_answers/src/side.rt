//! A side of the possible rows of a query.

ghost use Rattle.std.specs.Prelude.{◌↔◌, IsTrue, List, OnOk};
ghost use Rattle.cqa_model.specs.declared.query.Query.{Query};
ghost use Rattle.cqa_model.specs.Database.{Table};
ghost use Rattle.cqa_model.specs.Certain.{IsCertain};
ghost use Rattle.row_answers.specs.Sides.{IsOf};
ghost use Rattle.row_answers.specs.Sifting.{Sifts};

use cqa_value::{NoMemory, Row};

/// Which of the possible rows of a query are looked for.
#[derive(Clone, Copy, Debug)]
pub enum Side {
    /// Those that every repair gives.
    Certain,
    /// Those that some repair doesn't give.
    Disputed,
}

impl Side {
    /// Puts a possible row, of which it is known whether it is certain, behind others if it is of this side.
    ///
    /// # Errors
    ///
    /// `NoMemory` where memory is refused.
    pub fn sift(self, row: Row, is_certain: bool, rows: &mut Vec<Row>) -> Result<(), NoMemory>
        ensures { (db : List Table) (q : Query) → (IsTrue is_certain ↔ IsCertain db q row) → OnOk result (Sifts (IsOf db q self) row rows.old.items rows.new.items) }
    {
        let is_of = match self {
            Side::Certain => is_certain,
            Side::Disputed => !is_certain,
        };
        if is_of {
            rows.push(row)?;
        } else {
            drop(row);
        }
        Ok(())
    }
}
