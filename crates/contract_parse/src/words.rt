//! What a token is to the grammar.
ghost use Rattle.std.specs.Prelude.{◌≡◌, ◌≤◌, ◌<◌, ◌∷◌, ◌==◌, IfSome, false, length, not, true};
ghost use Rattle.std.specs.List.{list_all};
ghost use Rattle.std.specs.Str.{bytes_eq};
ghost use Rattle.contract_grammar.specs.Tokens.{is_last, tokens};
ghost use Rattle.contract_grammar.specs.Words.{is_date, is_end, is_integer, is_name, is_number};
ghost use Rattle.contract_grammar.specs.Words.{is_reserved, is_the_mark, is_the_word};
ghost use Rattle.contract_grammar.specs.Words.{is_whole_mark};
ghost use Rattle.contract_grammar.specs.NameTexts.{is_word_text};
ghost use Rattle.contract_parse.specs.Reading.{LacksMark, tok_of, tokens_after, tokens_ahead};
ghost use Rattle.contract_parse.specs.AtOnce.{word_here};

use crate::token::{Lexeme, after_gap, next_lexeme};
use contract_grammar::{LexemeKind, is_reserved, is_word_byte};

/// The token that comes next, read ahead, and the text after it.
#[derive(Clone, Copy)]
pub struct Lookahead<'a> {
    pub token: Lexeme<'a>,
    pub after: &'a [u8],
}

/// The next token of a text, and the text after it.
#[inline(always)]
pub fn next(rest: &[u8]) -> (Lexeme<'_>, &[u8])
    ensures starts { tokens rest.now ≡ tok_of result.0 ∷ tokens_after result.0.kind result.1.now }
    ensures shorter { is_last result.0.kind ≡ false → length result.1.now < length rest.now }
    ensures within { length result.1.now ≤ length rest.now }
{
    next_lexeme(rest)
}

/// The text from its next token on.
#[inline(always)]
pub fn from_token(rest: &[u8]) -> &[u8]
    ensures same { tokens result.now ≡ tokens rest.now }
    ensures within { length result.now ≤ length rest.now }
{
    after_gap(rest)
}

/// The text after a word that begins the text, and that no other byte prolongs. The usual words
/// are found so, and need no token.
#[inline(always)]
pub fn after_the_word<'a>(start: &'a [u8], word: &[u8]) -> Option<&'a [u8]>
    requires { is_word_text word.now ≡ true }
    ensures found { IfSome result (λ r. word_here word.now start.now r.now) }
    ensures shorter { IfSome result (λ r. length r.now < length start.now) }
{
    if start.len() <= word.len() {
        return None;
    }
    let (text, after) = start.split_at(word.len());
    if are_same(text, word) && !is_word_byte(after[0]) {
        Some(after)
    } else {
        None
    }
}

/// The next token and the text after it, as one value that a reader may hand on.
pub fn look(rest: &[u8]) -> Lookahead<'_>
    ensures same { tokens_ahead result ≡ tokens rest.now }
    ensures within { length result.after.now ≤ length rest.now }
{
    let (token, after) = next(rest);
    Lookahead { token, after }
}

// Whether a byte is a mark by itself, whatever stands behind it: `(`, `)`, `,` or `;`.
fn is_whole_mark(b: u8) -> bool
    ensures { result ≡ is_whole_mark b }
{
    matches!(b, b'(' | b')' | b',' | b';')
}

/// The text after a mark of one byte that begins the text, and that no other byte
/// prolongs. Most marks are found so, and need no token.
pub fn after_byte<'a>(rest: &'a [u8], wanted: &[u8]) -> Option<&'a [u8]>
    ensures found { IfSome result (λ r. tokens rest.now
        ≡ record { kind = LexemeKind.Mark; text = wanted.now; left = length rest.now }
        ∷ tokens r.now) }
    ensures shorter { IfSome result (λ r. length r.now < length rest.now) }
{
    match (rest, wanted) {
        ([b, after @ ..], [w]) if *b == *w && is_whole_mark(*b) => Some(after),
        _ => None,
    }
}

/// Whether a mark of one byte that is not the wanted one begins the text, and no other byte
/// prolongs it.
pub fn begins_with_other(rest: &[u8], wanted: &[u8]) -> bool
    ensures { result ≡ true → LacksMark wanted.now (tokens rest.now) }
{
    match (rest, wanted) {
        ([b, ..], [w]) => *b != *w && is_whole_mark(*b),
        _ => false,
    }
}

/// Whether two texts are the same. Words are short, so they are compared in place.
pub fn are_same(text: &[u8], other: &[u8]) -> bool
    ensures { result ≡ bytes_eq text.now other.now }
{
    if text.len() != other.len() {
        return false;
    }
    for i in 0..text.len() {
        if text[i] != other[i] {
            return false;
        }
    }
    true
}

// Whether a text is this one. Most marks are one byte, so that is looked at first.
fn is_text(text: &[u8], wanted: &[u8]) -> bool
    ensures { result ≡ bytes_eq text.now wanted.now }
{
    match (text, wanted) {
        ([b], [w]) => *b == *w,
        _ => text == wanted,
    }
}

/// Whether a token is this word.
pub fn is_the_word(token: &Lexeme<'_>, word: &[u8]) -> bool
    ensures { result ≡ is_the_word word.now (tok_of token.now) }
{
    matches!(token.kind, LexemeKind::Word) && are_same(token.text, word)
}

/// Whether a token is this mark.
pub fn is_the_mark(token: &Lexeme<'_>, mark: &[u8]) -> bool
    ensures { result ≡ is_the_mark mark.now (tok_of token.now) }
{
    matches!(token.kind, LexemeKind::Mark) && is_text(token.text, mark)
}

/// Whether a token is a name: a word that is not reserved.
pub fn is_name(token: &Lexeme<'_>) -> bool
    ensures { result ≡ is_name (tok_of token.now) }
{
    matches!(token.kind, LexemeKind::Word) && !is_reserved(token.text)
}

/// Whether a token is a number, with a point or without.
pub fn is_number(token: &Lexeme<'_>) -> bool
    ensures { result ≡ is_number (tok_of token.now) }
{
    matches!(token.kind, LexemeKind::Number)
}

fn has_no_point(text: &[u8]) -> bool
    ensures { result ≡ list_all (λ b. not (b == 46)) text.now }
{
    text.iter().all(|b| *b != b'.')
}

/// A number without a point.
pub fn is_integer(token: &Lexeme<'_>) -> bool
    ensures { result ≡ is_integer (tok_of token.now) }
{
    matches!(token.kind, LexemeKind::Number) && has_no_point(token.text)
}

/// Whether a token is a date, `dddd-dd-dd` by its form.
pub fn is_date(token: &Lexeme<'_>) -> bool
    ensures { result ≡ is_date (tok_of token.now) }
{
    matches!(token.kind, LexemeKind::Date)
}

/// Whether a token is the end of the text.
pub fn is_end(token: &Lexeme<'_>) -> bool
    ensures { result ≡ is_end (tok_of token.now) }
{
    matches!(token.kind, LexemeKind::End)
}
