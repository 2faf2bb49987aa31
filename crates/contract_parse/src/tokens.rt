//! The tokens of a text, for other grammars over the same tokens.

/// What a token is.
#[derive(Clone, Copy, Debug, PartialEq, Eq)]
pub enum TokenKind {
    Word,
    Number,
    Date,
    Mark,
    End,
}

/// A token: its text is the bytes from `from` to before `to` of its source, and its first byte
/// stands at this line and column, both from 1.
#[derive(Clone, Copy, Debug, PartialEq, Eq)]
pub struct Token {
    pub kind: TokenKind,
    pub from: u32,
    pub to: u32,
    pub line: u32,
    pub column: u32,
}
