//! What a token is, and the bytes of words.
ghost use Rattle.std.specs.Prelude.{◌≡◌};
ghost use Rattle.contract_grammar.specs.Tokens.{is_letter, is_word_byte};

/// What a token is. At a stray byte no token begins.
#[derive(Clone, Copy)]
pub enum LexemeKind {
    Word,
    Number,
    Date,
    Mark,
    End,
    Stray,
}

/// What begins at a byte, and how many bytes it has.
#[derive(Clone, Copy)]
pub struct Extent {
    pub kind: LexemeKind,
    pub len: usize,
}

/// Whether a byte is a letter or `_`, with which words begin.
pub fn is_letter(b: u8) -> bool
    ensures { result ≡ is_letter b }
{
    b.is_ascii_alphabetic() | (b == b'_')
}

// Which bytes may stand in a word.
const WORD_BYTES: [bool; 256] = [
    false, false, false, false, false, false, false, false, false, false, false, false, false,
    false, false, false, false, false, false, false, false, false, false, false, false, false,
    false, false, false, false, false, false, false, false, false, false, false, false, false,
    false, false, false, false, false, false, false, false, false, true, true, true, true, true,
    true, true, true, true, true, false, false, false, false, false, false, false, true, true,
    true, true, true, true, true, true, true, true, true, true, true, true, true, true, true, true,
    true, true, true, true, true, true, true, true, false, false, false, false, true, false, true,
    true, true, true, true, true, true, true, true, true, true, true, true, true, true, true, true,
    true, true, true, true, true, true, true, true, true, false, false, false, false, false, false,
    false, false, false, false, false, false, false, false, false, false, false, false, false,
    false, false, false, false, false, false, false, false, false, false, false, false, false,
    false, false, false, false, false, false, false, false, false, false, false, false, false,
    false, false, false, false, false, false, false, false, false, false, false, false, false,
    false, false, false, false, false, false, false, false, false, false, false, false, false,
    false, false, false, false, false, false, false, false, false, false, false, false, false,
    false, false, false, false, false, false, false, false, false, false, false, false, false,
    false, false, false, false, false, false, false, false, false, false, false, false, false,
    false, false, false, false, false, false, false, false, false, false, false, false, false,
    false, false, false, false, false, false, false, false, false, false,
];

/// Whether a byte may stand in a word: a letter, `_` or a digit. Texts are words for the most part,
/// so it is looked up.
pub fn is_word_byte(b: u8) -> bool
    ensures { result ≡ is_word_byte b }
{
    WORD_BYTES[b as usize]
}
