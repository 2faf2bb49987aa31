//! Numbers and modes that begin a text, and need no token. Whatever is odd is
//! left to the readers of tokens.
ghost use Rattle.std.specs.Prelude.{◌≡◌, ◌≤◌, ◌<◌, ◌+◌, ◌^◌, ◌∷◌};
ghost use Rattle.std.specs.Prelude.{ℕ, List, IfSome, false, length, suc};
ghost use Rattle.contract_grammar.specs.Tokens.{tokens};
ghost use Rattle.contract_grammar.specs.Judgements.{integer_at, literal_at, mode_at};
ghost use Rattle.contract_grammar.specs.Spelling.{valued};
ghost use Rattle.contract_parse.specs.AtOnce.{after_digits, ends_integer, number_written};

use crate::token::is_digit;
use crate::words::after_the_word;
use decimal::{Decimal, Mode};

// Digits are read as long as their number is at most this.
const MOST_READ: u64 = 100_000_000_000_000_000;

// The number that the first digits of a text write behind others, and the text after them.
#[inline(always)]
fn digits_behind(before: u64, bytes: &[u8]) -> Option<(u64, &[u8])>
    ensures number { IfSome result (λ r. r.0 ≡ number_written before bytes.now) }
    ensures rest { IfSome result (λ r. r.1.now ≡ after_digits bytes.now) }
    ensures within { IfSome result (λ r. length r.1.now ≤ length bytes.now) }
    ensures small { before ≤ 10 ^ 18 + 9 → IfSome result (λ r. r.0 ≤ 10 ^ 18 + 9) }
{
    let mut number = before;
    let mut rest = bytes;
    while let [b, after @ ..] = rest {
        if !is_digit(*b) {
            break;
        }
        if number > MOST_READ {
            return None;
        }
        number = number * 10 + (*b - b'0') as u64;
        rest = after;
    }
    Some((number, rest))
}

// Whether digits before this text are a number without a point. A hyphen may go on a date.
#[inline(always)]
fn ends_integer(after: &[u8]) -> bool
    ensures { result ≡ ends_integer after.now }
{
    matches!(after, [b, ..] if *b != b'-' && *b != b'.')
}

// The literal that digits are with those behind their point.
#[inline(always)]
fn fraction_here(whole: u64, bytes: &[u8]) -> Option<(Decimal, &[u8])>
    requires { whole ≤ 10 ^ 18 + 9 }
    ensures found { (start : List ℕ) → whole ≡ number_written 0 start
        → after_digits start ≡ 46 ∷ bytes.now → suc (length bytes.now) < length start
        → IfSome result (λ r. valued (literal_at false) r.0 (tokens start) (tokens r.1.now)) }
    ensures shorter { IfSome result (λ r. length r.1.now < length bytes.now) }
{
    let (number, after) = digits_behind(whole, bytes)?;
    let scale = bytes.len() - after.len();
    if scale == 0 || scale > 27 || after.is_empty() {
        return None;
    }
    let number = Decimal {
        mant: number as i128,
        scale: scale as u8,
    };
    Some((number, after))
}

/// A literal without a sign, and the text after it.
pub fn literal_here(start: &[u8]) -> Option<(Decimal, &[u8])>
    ensures found { IfSome result
        (λ r. valued (literal_at false) r.0 (tokens start.now) (tokens r.1.now)) }
    ensures shorter { IfSome result (λ r. length r.1.now < length start.now) }
{
    let (whole, after) = digits_behind(0, start)?;
    if after.len() == start.len() {
        return None;
    }
    if let [b'.', more @ ..] = after {
        return fraction_here(whole, more);
    }
    if !ends_integer(after) {
        return None;
    }
    let number = Decimal {
        mant: whole as i128,
        scale: 0,
    };
    Some((number, after))
}

/// A number without a point, of at most `most`, and the text after it.
#[inline(always)]
pub fn integer_here(most: u32, start: &[u8]) -> Option<(u32, &[u8])>
    ensures found { IfSome result
        (λ r. valued (integer_at most) r.0 (tokens start.now) (tokens r.1.now)) }
    ensures most { IfSome result (λ r. r.0 ≤ most) }
    ensures shorter { IfSome result (λ r. length r.1.now < length start.now) }
{
    let (number, after) = digits_behind(0, start)?;
    if after.len() == start.len() || number > most as u64 || !ends_integer(after) {
        return None;
    }
    Some((number as u32, after))
}

/// How a number is rounded, and the text after that.
#[inline(always)]
pub fn mode_here(start: &[u8]) -> Option<(Mode, &[u8])>
    ensures found { IfSome result
        (λ r. valued mode_at r.0 (tokens start.now) (tokens r.1.now)) }
    ensures shorter { IfSome result (λ r. length r.1.now < length start.now) }
{
    match start {
        [b'h', ..] => match after_the_word(start, b"half_even") {
            Some(after) => Some((Mode::HalfEven, after)),
            None => Some((Mode::HalfAway, after_the_word(start, b"half_away")?)),
        },
        [b'f', ..] => Some((Mode::Floor, after_the_word(start, b"floor")?)),
        [b'c', ..] => Some((Mode::Ceil, after_the_word(start, b"ceil")?)),
        _ => None,
    }
}
