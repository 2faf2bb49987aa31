//! Texts that can be names.

ghost use Rattle.std.specs.Prelude.{◌≡◌};
ghost use Rattle.std.specs.List.{list_all};
ghost use Rattle.contract_grammar.specs.Tokens.{is_word_byte};
ghost use Rattle.contract_grammar.specs.NameTexts.{is_name_text, is_word_tail, is_word_text};

use crate::reserved::is_reserved;
use crate::token::{is_letter, is_word_byte};

fn are_word_bytes(text: &[u8]) -> bool
    ensures { result ≡ list_all is_word_byte text.now }
{
    text.iter().all(|b| is_word_byte(*b))
}

// At most 63 letters, digits and `_`.
fn is_word_tail(rest: &[u8]) -> bool
    ensures { result ≡ is_word_tail rest.now }
{
    are_word_bytes(rest) && rest.len() < 64
}

// A letter or `_`, then letters, digits and `_`.
fn is_word_text(text: &[u8]) -> bool
    ensures { result ≡ is_word_text text.now }
{
    match text {
        [] => false,
        [first, rest @ ..] => is_letter(*first) && is_word_tail(rest),
    }
}

/// A text can be a name: 1 to 64 letters, digits and `_`, of which the first is no digit, and no
/// reserved word.
pub fn is_name_text(text: &[u8]) -> bool
    ensures { result ≡ is_name_text text.now }
{
    is_word_text(text) && !is_reserved(text)
}
