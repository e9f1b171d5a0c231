//! The classes of queries by the cycles of their attacks.

/// How hard it is to decide the certain rows of a query.
#[derive(Clone, Copy, Debug, PartialEq, Eq)]
pub enum Class {
    /// No cycle of attacks: a plan decides them.
    FirstOrder,
    /// A cycle, but none with a strong attack: decided in polynomial time.
    Polynomial,
    /// A cycle with a strong attack: as hard as any problem in coNP.
    CoNp,
}
