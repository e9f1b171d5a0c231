//! Tokens, the symbols among them, and the faults of a text that
//! has none.

use thiserror::Error;

/// A range of bytes of a text, from its first byte to the one after its last.
#[derive(Clone, Copy, Debug, PartialEq, Eq)]
pub struct Span {
    pub from: usize,
    pub to: usize,
}

/// A symbol of the script language.
#[derive(Clone, Copy, Debug, PartialEq, Eq)]
pub enum Symbol {
    Open,
    Close,
    Comma,
    Dot,
    Eq,
    Ne,
    Lt,
    Le,
    Gt,
    Ge,
}

/// What a token is.
#[derive(Clone, Copy, Debug, PartialEq, Eq)]
pub enum TokenKind {
    Word,
    Int,
    Text,
    Sym(Symbol),
}

/// A token and the bytes of the text that it spans.
#[derive(Clone, Copy, Debug, PartialEq, Eq)]
pub struct Token {
    pub kind: TokenKind,
    pub span: Span,
}

/// Why a text has no tokens: its length in bytes, or the offset of a byte that belongs to none.
#[derive(Clone, Copy, Debug, PartialEq, Eq, Error)]
pub enum LexFault {
    #[error("the statement has {0} bytes, which are too many")]
    TooLong(usize),
    #[error("the byte at {0} begins no token")]
    BadByte(u32),
}
