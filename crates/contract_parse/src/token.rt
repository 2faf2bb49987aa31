//! The tokens of a text, one at a time.
ghost use Rattle.std.specs.Prelude.{◌≡◌, ◌≤◌, ◌<◌, ◌==◌, ◌||◌, false, true, length};
ghost use Rattle.std.specs.List.{prefix_len};
ghost use Rattle.contract_grammar.specs.Tokens.{after_gap, begins_with_date, begins_with_digit};
ghost use Rattle.contract_grammar.specs.Tokens.{digits_extent, extent_at, fraction_len, is_blank};
ghost use Rattle.contract_grammar.specs.Tokens.{is_digit, is_letter, is_word_byte, mark_extent};
ghost use Rattle.contract_grammar.specs.Tokens.{mark_len, next_lexeme, number_len, word_extent};

use contract_grammar::{Extent, LexemeKind, is_letter, is_word_byte};
use term_model::{LONGEST_NAME, date_parts};

/// A token, and how many bytes are left where it begins.
#[derive(Clone, Copy)]
pub struct Lexeme<'a> {
    pub kind: LexemeKind,
    pub text: &'a [u8],
    pub left: usize,
}

/// Whether a byte is a digit.
pub fn is_digit(b: u8) -> bool
    ensures { result ≡ is_digit b }
{
    b.is_ascii_digit()
}

fn is_blank(b: u8) -> bool
    ensures { result ≡ is_blank b }
{
    matches!(b, b' ' | b'\t' | b'\r' | b'\n')
}

// Whether a byte is a blank, or begins a comment.
fn begins_gap(b: u8) -> bool
    ensures { result ≡ is_blank b || b == 35 }
{
    matches!(b, b' ' | b'\t' | b'\r' | b'\n' | b'#')
}

// The bytes after a space, if one stands here.
fn after_space(bytes: &[u8]) -> &[u8]
    ensures rest { after_gap false result.now ≡ after_gap false bytes.now }
    ensures within { length result.now ≤ length bytes.now }
{
    match bytes {
        [b' ', after @ ..] => after,
        _ => bytes,
    }
}

/// The bytes after the blanks and the comments. Most gaps are a space or nothing, so that is looked
/// at first.
#[inline(always)]
pub fn after_gap(bytes: &[u8]) -> &[u8]
    ensures rest { result.now ≡ after_gap false bytes.now }
    ensures within { length result.now ≤ length bytes.now }
{
    let rest = after_space(bytes);
    match rest {
        [b, ..] if !begins_gap(*b) => rest,
        _ => after_any_gap(rest),
    }
}

// The bytes after any blanks and comments.
#[inline(never)]
fn after_any_gap(bytes: &[u8]) -> &[u8]
    ensures rest { result.now ≡ after_gap false bytes.now }
    ensures within { length result.now ≤ length bytes.now }
{
    let mut rest = bytes;
    let mut in_comment = false;
    while let [b, after @ ..] = rest {
        if in_comment {
            in_comment = *b != b'\n';
        } else if *b == b'#' {
            in_comment = true;
        } else if !is_blank(*b) {
            break;
        }
        rest = after;
    }
    rest
}

fn word_len(bytes: &[u8]) -> usize
    ensures value { result ≡ prefix_len is_word_byte bytes.now }
    ensures within { result ≤ length bytes.now }
{
    bytes.iter().take_while(|b| is_word_byte(**b)).count()
}

fn digits_len(bytes: &[u8]) -> usize
    ensures value { result ≡ prefix_len is_digit bytes.now }
    ensures within { result ≤ length bytes.now }
{
    bytes.iter().take_while(|b| is_digit(**b)).count()
}

fn fraction_len(bytes: &[u8]) -> usize
    ensures value { result ≡ fraction_len bytes.now }
    ensures within { result ≤ length bytes.now }
{
    match bytes {
        [] => 0,
        [b, after @ ..] => {
            let digits = digits_len(after);
            if *b == b'.' && 0 < digits {
                1 + digits
            } else {
                0
            }
        }
    }
}

fn number_len(bytes: &[u8]) -> usize
    ensures value { result ≡ number_len bytes.now }
    ensures within { result ≤ length bytes.now }
{
    let whole = digits_len(bytes);
    whole + fraction_len(&bytes[whole..])
}

fn begins_with_digit(bytes: &[u8]) -> bool
    ensures { result ≡ begins_with_digit bytes.now }
{
    match bytes {
        [] => false,
        [b, ..] => is_digit(*b),
    }
}

// Whether a text `dddd-dd-dd` stands here, and no digit after it.
#[tactic(auto, using(contract_grammar::proofs::DateShape::too_few, contract_grammar::proofs::DateShape::as_parts))]
fn begins_with_date(bytes: &[u8]) -> bool
    ensures value { result ≡ begins_with_date bytes.now }
    ensures long { result ≡ true → 10 ≤ length bytes.now }
{
    match bytes.split_first_chunk::<10>() {
        Some((text, after)) => date_parts(text).is_some() && !begins_with_digit(after),
        None => false,
    }
}

fn mark_len(bytes: &[u8]) -> usize
    ensures value { result ≡ mark_len bytes.now }
    ensures within { result ≤ length bytes.now }
{
    match bytes {
        [b'<' | b'>' | b'!', b'=', ..] | [b'.', b'.', ..] => 2,
        [
            b';'
            | b','
            | b':'
            | b'='
            | b'('
            | b')'
            | b'+'
            | b'-'
            | b'*'
            | b'<'
            | b'>'
            | b'&'
            | b'|',
            ..
        ] => 1,
        _ => 0,
    }
}

fn word_extent(len: usize) -> Extent
    ensures value { result ≡ word_extent len }
    ensures within { result.len ≤ len }
{
    if len > LONGEST_NAME {
        Extent {
            kind: LexemeKind::Stray,
            len: 0,
        }
    } else {
        Extent {
            kind: LexemeKind::Word,
            len,
        }
    }
}

fn mark_extent(len: usize) -> Extent
    ensures value { result ≡ mark_extent len }
    ensures within { result.len ≤ len }
{
    if len == 0 {
        Extent {
            kind: LexemeKind::Stray,
            len: 0,
        }
    } else {
        Extent {
            kind: LexemeKind::Mark,
            len,
        }
    }
}

// A date comes before a number.
fn digits_extent(bytes: &[u8]) -> Extent
    ensures value { result ≡ digits_extent bytes.now }
    ensures within { result.len ≤ length bytes.now }
{
    if begins_with_date(bytes) {
        Extent {
            kind: LexemeKind::Date,
            len: 10,
        }
    } else {
        Extent {
            kind: LexemeKind::Number,
            len: number_len(bytes),
        }
    }
}

#[inline(never)]
#[tactic(auto, unfolding(contract_grammar::specs::Tokens::extent_at))]
fn extent_at(bytes: &[u8]) -> Extent
    ensures value { result ≡ extent_at bytes.now }
    ensures within { result.len ≤ length bytes.now }
{
    match bytes {
        [] => Extent {
            kind: LexemeKind::End,
            len: 0,
        },
        [b, ..] if is_letter(*b) => word_extent(word_len(bytes)),
        [b, ..] if is_digit(*b) => digits_extent(bytes),
        _ => mark_extent(mark_len(bytes)),
    }
}

/// The next token, and the bytes after it.
#[inline(always)]
#[tactic(auto, unfolding(contract_grammar::specs::Tokens::next_lexeme))]
pub fn next_lexeme(bytes: &[u8]) -> (Lexeme<'_>, &[u8])
    ensures { (
      record { kind = result.0.kind; text = result.0.text.now; left = result.0.left },
      result.1.now,
    ) ≡ next_lexeme bytes.now }
{
    let start = after_gap(bytes);
    let extent = extent_at(start);
    let (text, rest) = start.split_at(extent.len);
    (
        Lexeme {
            kind: extent.kind,
            text,
            left: start.len(),
        },
        rest,
    )
}
