//! Why tokens aren't a statement.

use thiserror::Error;

/// Why tokens aren't read as a statement, with an offset into the text: that of the first token
/// that no statement goes on with (or the text's length), or of the first literal or name that is
/// out of its limits.
#[derive(Clone, Copy, Debug, PartialEq, Eq, Error)]
pub enum SyntaxFault {
    #[error("no statement goes on as at {0}")]
    At(u32),
    #[error("the integer at {0} is out of range")]
    OutOfRange(u32),
    #[error("the text at {0} is too long")]
    TextTooLong(u32),
    #[error("the name at {0} is too long")]
    LongName(u32),
}
