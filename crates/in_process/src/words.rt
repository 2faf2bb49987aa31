//! The words of a command, as bytes.

ghost use Rattle.std.specs.Prelude.{◌≡◌, map, MatchResult};
ghost use Rattle.std.specs.List.{All};
ghost use Rattle.std.specs.Str.{IsUtf8};
ghost use Rattle.in_process.specs.declared.words.NotWords.TheVariants as not_words;

use std::alloc::Global;

/// A word that is lent: its bytes, a pointer and a length to C.
#[repr(C)]
#[derive(Clone, Copy)]
pub struct Piece<'a> {
    /// The bytes.
    pub bytes: &'a [u8],
}

// Why there are no words.
#[derive(Clone, Copy)]
pub(crate) enum NotWords {
    // A word is not UTF-8.
    NoText,
    // Memory ran out.
    NoMemory,
}

// The words as texts.
pub(crate) fn words_of<'a>(alloc: Global, pieces: &[Piece<'a>]) -> Result<Vec<&'a str>, NotWords>
    ensures { MatchResult result
        (λ words. map (λ word. word.now) words.items ≡ map (λ piece. piece.bytes.now) pieces.now)
        (λ e. e ≡ not_words.NoText → All IsUtf8 (map (λ piece. piece.bytes.now) pieces.now) → ⊥) }
{
    let mut words = Vec::new(alloc);
    for piece in pieces {
        let Ok(word) = str::from_utf8(piece.bytes) else {
            return Err(NotWords::NoText);
        };
        if words.push(word).is_err() {
            return Err(NotWords::NoMemory);
        }
    }
    Ok(words)
}
