//! Why a text is refused, and where.

/// The rule of the grammar that a token breaks.
#[derive(Clone, Copy, Debug, PartialEq, Eq)]
pub enum TextKind {
    Syntax,
    Number,
    Date,
    Deep,
    Range,
    Twice,
    Unknown,
    Utf8,
}

/// The first fault of a text, with the line and the column of its token, both from 1 and the column
/// in bytes.
#[derive(Clone, Copy, Debug, PartialEq, Eq)]
pub struct TextFault {
    pub kind: TextKind,
    pub line: u32,
    pub column: u32,
}
