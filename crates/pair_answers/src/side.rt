//! One of the two atoms of a pair, as its rows are looked at for the row asked for.

ghost use Rattle.std.specs.Prelude.{◌≡◌, ◌<◌, IsTrue, length};
ghost use Rattle.pair_answers.specs.Plain.{IsPlain, plain_once};

use crate::plain::all_fit;
use cqa_value::Row;
use table_blocks::Bound;

/// An atom with the row asked for, and with the columns whose values are the list of a row of the atom.
#[derive(Drop)]
pub(crate) struct Side<'a, 'r> {
    pub bound: &'a Bound<'a>,
    pub row: &'r Row,
    pub atom: u32,
    pub columns: &'a [u32],
    /// Each row of the atom fits, as the query alone tells.
    pub all_fit: bool,
    pub ghost there: { atom < length bound.now.query.now.atoms },
    pub ghost plain: { IsTrue all_fit → IsPlain bound.now.query.now atom } by { plain_once all_fit bound.now.query.now atom },
}

impl<'a, 'r> Side<'a, 'r> {
    /// An atom with the row asked for and these columns.
    pub fn new(bound: &'a Bound<'a>, row: &'r Row, atom: u32, columns: &'a [u32]) -> Side<'a, 'r>
        requires { atom < length bound.now.query.now.atoms }
        ensures bound { result.bound.now ≡ bound.now }
        ensures row { result.row.now ≡ row.now }
        ensures atom { result.atom ≡ atom }
        ensures columns { result.columns.now ≡ columns.now }
    {
        Side {
            bound,
            row,
            atom,
            columns,
            all_fit: all_fit(bound, atom),
        }
    }
}
