//! What a cut of a script finds.

use crate::Span;

/// What stands first in a script, as [`cut`](crate::cut) finds it.
#[derive(Clone, Copy, Debug, PartialEq, Eq)]
pub enum Cut {
    /// A complete statement: its text, its block if it has one, and the place of the first byte after it.
    Statement {
        text: Span,
        block: Option<Span>,
        rest: usize,
    },
    /// Blanks and comments alone.
    Blank,
    /// More than blanks and comments, and no complete statement.
    Part,
}
