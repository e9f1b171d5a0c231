//! A pair over a database: a query of two tables that attack each other weakly, with the database that it fits.

ghost use Rattle.std.specs.Prelude.{◌≡◌, length};
ghost use Rattle.cqa_model.specs.Graph.{IsPair};

use table_blocks::Bound;

/// A query of two tables that attack each other weakly, with the database that it fits.
#[derive(Clone, Copy)]
pub struct PairQuery<'a> {
    pub bound: &'a Bound<'a>,
    pub ghost two: { length bound.now.query.now.atoms ≡ 2 },
    pub ghost pair: { ∥ IsPair bound.now.query.now ∥₁ },
}

impl<'a> PairQuery<'a> {
    /// A pair over the database that it fits.
    pub fn new(bound: &'a Bound<'a>) -> PairQuery<'a>
        requires { IsPair bound.now.query.now }
        ensures { result.bound.now ≡ bound.now }
    {
        PairQuery { bound }
    }
}
