//! Numbers of at most 18 digits, read where they stand in a text, in one pass over their bytes. Of
//! any other number nothing is said: `days` and `values` read it.

ghost use Rattle.std.specs.Prelude.{◌≡◌, ◌≤◌, ◌<◌, ◌^◌, ◌++◌, Option, ℤ, IfSome, drop};
ghost use Rattle.decimal.specs.DecimalText.{minus_sign, signed};
ghost use Rattle.decimal.specs.Rounding.{raised};
ghost use Rattle.term_model.specs.Limits.{last_fixed_day};
ghost use Rattle.fixing_files.specs.Words.{BeginsWithDay, BeginsWithDigits, BeginsWithMantissa};

use crate::words::behind_byte;
use decimal::align;
use term_model::LAST_FIXED_DAY;

// From here on a number may have 18 digits, and takes no further one.
const FULL: u64 = 100_000_000_000_000_000;

// The number that the digits of a text write behind those of another, and how many they are.
fn count_digits(before: u64, text: &[u8]) -> (u64, usize)
    requires { before < 10 ^ 18 }
    ensures { BeginsWithDigits before text.now result.0 result.1 }
{
    let mut number = before;
    let mut count = 0;
    for b in text {
        if !b.is_ascii_digit() || number >= FULL {
            return (number, count);
        }
        number = number * 10 + (*b - b'0') as u64;
        count += 1;
    }
    (number, count)
}

// The same, and the text behind the digits.
fn digits_at(before: u64, text: &[u8]) -> (u64, usize, &[u8])
    requires { before < 10 ^ 18 }
    ensures digits { BeginsWithDigits before text.now result.0 result.1 }
    ensures rest { result.2.now ≡ drop result.1 text.now }
{
    let (number, count) = count_digits(before, text);
    (number, count, &text[count..])
}

// Whether a text begins with a minus, and the text behind it.
fn sign_at(text: &[u8]) -> (bool, &[u8])
    ensures { text.now ≡ minus_sign result.0 ++ result.1.now }
{
    match text {
        [b'-', rest @ ..] => (true, rest),
        _ => (false, text),
    }
}

// A number of days with its sign.
fn signed_day(negative: bool, number: u64) -> i64
    requires { number ≤ last_fixed_day }
    ensures { result ≡ signed negative number }
{
    if negative {
        -(number as i64)
    } else {
        number as i64
    }
}

/// The number of days that stands in a text before a comma, and the text behind them.
pub fn days_at(text: &[u8]) -> Option<(i64, &[u8])>
    ensures { IfSome result (λ r.
        (origin : Option ℤ) → BeginsWithDay origin text.now r.0 r.1.now) }
{
    let (negative, digits) = sign_at(text);
    let (number, count, behind) = digits_at(0, digits);
    if count == 0 || count > 9 || number > LAST_FIXED_DAY as u64 {
        return None;
    }
    let rest = behind_byte(b',', behind)?;
    Some((signed_day(negative, number), rest))
}

// A number with its sign, at more decimals.
fn mantissa_of(negative: bool, number: u64, more: u8) -> i128
    requires number { number < 10 ^ 18 }
    requires more { more ≤ 18 }
    ensures { result ≡ raised (signed negative number) more }
{
    let mant = align(number as i128, 0, more);
    if negative { -mant } else { mant }
}

/// The mantissa, at a scale, of the decimal that a text begins with, and the text behind it.
pub fn mantissa_at(scale: u8, text: &[u8]) -> Option<(i128, &[u8])>
    requires { scale ≤ 18 }
    ensures { IfSome result (λ r. BeginsWithMantissa scale text.now r.0 r.1.now) }
{
    let (negative, digits) = sign_at(text);
    let (whole, count, behind) = digits_at(0, digits);
    if count == 0 {
        return None;
    }
    let Some(fraction) = behind_byte(b'.', behind) else {
        return Some((mantissa_of(negative, whole, scale), behind));
    };
    let (number, decimals, rest) = digits_at(whole, fraction);
    if decimals == 0 || decimals > scale as usize {
        return None;
    }
    let mant = mantissa_of(negative, number, scale - decimals as u8);
    Some((mant, rest))
}
